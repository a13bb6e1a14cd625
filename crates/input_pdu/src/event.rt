/// An input event of a client, [MS-RDPBCGR] 2.2.8.1.1.3.1.1.
#[derive(Clone, Copy, Debug, PartialEq, Eq)]
pub enum Event {
    /// The state of the toggle keys, 2.2.8.1.1.3.1.1.5. It changes nothing here.
    Sync,
    /// A key by its scan code, 2.2.8.1.1.3.1.1.1.
    Scan { code: u16, up: bool },
    /// A key by its Unicode code, 2.2.8.1.1.3.1.1.2.
    Unicode { code: u16, up: bool },
    /// The mouse at a place in pixels, with its pointerFlags, 2.2.8.1.1.3.1.1.3.
    Mouse { flags: u16, x: u16, y: u16 },
    /// The further buttons of a mouse, 2.2.8.1.1.3.1.1.4. They change nothing here.
    MouseX,
}
