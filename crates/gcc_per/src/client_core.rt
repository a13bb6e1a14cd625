//! Client Core Data, CS_CORE (MS-RDPBCGR, 2.2.1.3.2).
//!
//! | offset | size | field | value |
//! |---|---|---|---|
//! | 0 | 4 | header | type `01 C0`, length at least 132 |
//! | 4 | 4 | version | not read |
//! | 8 | 2 | desktopWidth | pixels |
//! | 10 | 2 | desktopHeight | pixels |
//! | 12 | 8 | colorDepth, SASSequence, keyboardLayout | not read |
//! | 20 | 4 | clientBuild | the build number of the client |
//! | 24 | 108 | clientName to imeFileName | not read |
//! | 132 | 2 | postBeta2ColorDepth | optional, `CA04` is 24 bits, `CA03` is 16 |
//! | 134 | 6 | clientProductId, serialNumber | optional, not read |
//! | 140 | 2 | highColorDepth | optional, bits for each pixel |
//! | 142 | 2 | supportedColorDepths | optional, bit 0 is 24 bits, bit 1 is 16 |
//! | 144 | | earlyCapabilityFlags and more | not read |

ghost use Rattle.std.specs.Prelude.{◌≡◌, ◌≤◌, length};
ghost use Rattle.gcc_per.specs.ClientCore.{number_within, supported_bits, post_beta2, offers, asks_for_16, depth_of_offers, core_depth, desktop_of};

use byteorder::{ByteOrder, LittleEndian};
use px_core::{Depth, bits_in};

/// The bytes of a block's header, which isn't in the content.
const HEADER_SIZE: usize = 4;
/// The offsets of the fields that are read, in the content.
const DESKTOP_WIDTH: usize = 8 - HEADER_SIZE;

const DESKTOP_HEIGHT: usize = 10 - HEADER_SIZE;

const CLIENT_BUILD: usize = 20 - HEADER_SIZE;

const POST_BETA2_COLOR_DEPTH: usize = 132 - HEADER_SIZE;

const HIGH_COLOR_DEPTH: usize = 140 - HEADER_SIZE;

const SUPPORTED_COLOR_DEPTHS: usize = 142 - HEADER_SIZE;
/// The bytes of each of the last three.
const FIELD_SIZE: usize = 2;
/// 24 and 16 bits for each pixel, in supportedColorDepths.
const RNS_UD_24BPP_SUPPORT: u16 = 0x0001;

const RNS_UD_16BPP_SUPPORT: u16 = 0x0002;
/// The same in postBeta2ColorDepth.
const RNS_UD_COLOR_24BPP: u16 = 0xCA04;

const RNS_UD_COLOR_16BPP_565: u16 = 0xCA03;
/// 16 bits for each pixel, in highColorDepth.
const HIGH_COLOR_16BPP: u16 = 16;

/// The size of the desktop that the client asks for, in pixels, the build number that it says, and the depth that it is shown.
#[derive(Clone, Copy, Debug, PartialEq, Eq)]
pub struct Desktop {
    pub width: u16,
    pub height: u16,
    pub build: u32,
    pub depth: Depth,
}

/// The desktop that the content of a CS_CORE asks for; none where neither 24 nor 16 bits for each pixel are offered.
#[tactic(auto, unfolding(crate::specs::ClientCore::desktop_of))]
pub fn desktop_of(content: &[u8]) -> Option<Desktop>
    requires { 128 ≤ length content.now }
    ensures { result ≡ desktop_of content.now }
{
    let depth = core_depth(content)?;
    Some(Desktop {
        width: LittleEndian::read_u16(&content[DESKTOP_WIDTH..]),
        height: LittleEndian::read_u16(&content[DESKTOP_HEIGHT..]),
        build: LittleEndian::read_u32(&content[CLIENT_BUILD..]),
        depth,
    })
}

/// The depth that the content of a CS_CORE asks for, of those that it offers.
fn core_depth(content: &[u8]) -> Option<Depth>
    ensures { result ≡ core_depth content.now }
{
    depth_of_offers(
        number_within(content, SUPPORTED_COLOR_DEPTHS),
        number_within(content, HIGH_COLOR_DEPTH),
        number_within(content, POST_BETA2_COLOR_DEPTH),
    )
}

/// The depth by the optional fields: 24 bits wherever they are offered, unless 16 are offered and asked for.
fn depth_of_offers(supported: Option<u16>, high: Option<u16>, post: Option<u16>) -> Option<Depth>
    ensures { result ≡ depth_of_offers supported high post }
{
    let offers_24 = offers(Depth::Bits24, supported, high, post);
    if offers(Depth::Bits16, supported, high, post) && (asks_for_16(high) || !offers_24) {
        Some(Depth::Bits16)
    } else if offers_24 {
        Some(Depth::Bits24)
    } else {
        None
    }
}

/// Whether a depth is offered, by the last of the optional fields that is there.
fn offers(depth: Depth, supported: Option<u16>, high: Option<u16>, post: Option<u16>) -> bool
    ensures { result ≡ offers depth supported high post }
{
    match (supported, high, post) {
        (Some(depths), _, _) => depths & supported_bits(depth) == supported_bits(depth),
        (None, Some(bits), _) => bits == bits_in(depth),
        (None, None, Some(code)) => code == post_beta2(depth),
        (None, None, None) => false,
    }
}

/// Whether highColorDepth asks for 16 bits for each pixel.
fn asks_for_16(high: Option<u16>) -> bool
    ensures { result ≡ asks_for_16 high }
{
    match high {
        Some(bits) => bits == HIGH_COLOR_16BPP,
        None => false,
    }
}

/// A depth's bit in supportedColorDepths.
fn supported_bits(depth: Depth) -> u16
    ensures { result ≡ supported_bits depth }
{
    match depth {
        Depth::Bits24 => RNS_UD_24BPP_SUPPORT,
        Depth::Bits16 => RNS_UD_16BPP_SUPPORT,
    }
}

/// A depth in postBeta2ColorDepth.
fn post_beta2(depth: Depth) -> u16
    ensures { result ≡ post_beta2 depth }
{
    match depth {
        Depth::Bits24 => RNS_UD_COLOR_24BPP,
        Depth::Bits16 => RNS_UD_COLOR_16BPP_565,
    }
}

/// The number at an offset, where all of it is there.
fn number_within(content: &[u8], at: usize) -> Option<u16>
    requires { at ≤ 65535 }
    ensures { result ≡ number_within at content.now }
{
    if content.len() < at + FIELD_SIZE {
        return None;
    }
    Some(LittleEndian::read_u16(&content[at..]))
}
