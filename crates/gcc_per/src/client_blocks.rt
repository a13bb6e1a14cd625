//! The client's data blocks (MS-RDPBCGR, 2.2.1.3.1).
//!
//! | offset | size | field | value |
//! |---|---|---|---|
//! | 0 | 2 | type | `01 C0` CS_CORE, `03 C0` CS_NET, each at most once; others are skipped |
//! | 2 | 2 | length | of the block, this header included |
//! | 4 | | content | by the type |

ghost use Rattle.std.specs.Prelude.{◌≡◌, ◌≤◌, IfOk};
ghost use Rattle.wire_num.specs.FieldValue.{passing_at};
ghost use Rattle.wire_num.specs.Number.{little_at};
ghost use Rattle.wire_num.specs.Cursor.{rest, ReadsField, ReadsCaused};
ghost use Rattle.gcc_per.specs.ClientBlocks.{kind_of, least_length, is_new, kind_at, length_at, block_at, blocks_at};

use crate::client_core::{Desktop, desktop_of};
use crate::client_network::read_channels;
use crate::gcc_fault::Cause;
use wire_num::{Cursor, Short};

/// The types of the blocks that are read.
const CS_CORE: u16 = 0xC001;

const CS_NET: u16 = 0xC003;
/// The bytes of a header.
const HEADER_SIZE: u16 = 4;
/// The bytes of a CS_CORE, but for its optional fields.
const CORE_SIZE: u16 = 132;

/// What a block is, by its type.
#[derive(Clone, Copy, Debug, PartialEq, Eq)]
pub enum BlockKind {
    ClientCore,
    ClientNetwork,
    /// A block that isn't read.
    Other,
}

/// What is found in the blocks so far.
#[derive(Clone, Copy, Debug, PartialEq, Eq)]
pub struct ClientBlocks {
    /// The desktop that CS_CORE asks for, and the client's build.
    pub desktop: Option<Desktop>,
    /// The channels of CS_NET.
    pub channels: Option<u16>,
}

/// Reads blocks to the end.
pub fn read_blocks(cursor: &mut Cursor<'_>) -> Result<ClientBlocks, Cause>
    ensures { ReadsCaused blocks_at result cursor.old cursor.new }
{
    let mut found = ClientBlocks {
        desktop: None,
        channels: None,
    };
    while cursor.left() > 0 {
        found = read_block(found, cursor)?;
    }
    Ok(found)
}

/// Reads the next block, and gives what is found with it.
#[tactic(auto, unfolding(crate::specs::ClientBlocks::block_at))]
fn read_block(found: ClientBlocks, cursor: &mut Cursor<'_>) -> Result<ClientBlocks, Cause>
    ensures { ReadsCaused (block_at found) result cursor.old cursor.new }
{
    let at = cursor.at();
    let kind = read_kind(found, cursor)?;
    let length = read_length(kind, cursor)?;
    let mut content = cursor.within((length - HEADER_SIZE) as usize)?;
    match kind {
        BlockKind::ClientCore => match desktop_of(content.rest()) {
            Some(desktop) => Ok(ClientBlocks {
                desktop: Some(desktop),
                channels: found.channels,
            }),
            None => {
                cursor.go_to(at);
                Err(Cause::NoDepth)
            }
        },
        BlockKind::ClientNetwork => match read_channels(&mut content) {
            Ok(channels) => Ok(ClientBlocks {
                desktop: found.desktop,
                channels: Some(channels),
            }),
            Err(cause) => {
                cursor.go_to(content.at());
                Err(cause)
            }
        },
        BlockKind::Other => Ok(found),
    }
}

/// Reads the type of a block, which isn't repeated.
#[tactic(auto, unfolding(crate::specs::ClientBlocks::kind_at, wire_num::specs::FieldValue::passing_at))]
fn read_kind(found: ClientBlocks, cursor: &mut Cursor<'_>) -> Result<BlockKind, Short>
    ensures { ReadsField (kind_at found) result cursor.old cursor.new }
{
    let at = cursor.at();
    let kind = kind_of(cursor.u16_le()?);
    if !is_new(found, kind) {
        cursor.go_to(at);
        return Err(Short { at });
    }
    Ok(kind)
}

/// Reads the length of a block.
#[tactic(auto, unfolding(crate::specs::ClientBlocks::length_at))]
fn read_length(kind: BlockKind, cursor: &mut Cursor<'_>) -> Result<u16, Short>
    ensures field { ReadsField (length_at kind) result cursor.old cursor.new }
    ensures header { IfOk result (λ n. 4 ≤ n) }
    ensures least { IfOk result (λ n. least_length kind ≤ n) }
{
    let at = cursor.at();
    let length = cursor.u16_le()?;
    if length < least_length(kind) || (length - HEADER_SIZE) as usize > cursor.left() {
        cursor.go_to(at);
        return Err(Short { at });
    }
    Ok(length)
}

/// What a block of this type is.
fn kind_of(block_type: u16) -> BlockKind
    ensures { result ≡ kind_of block_type }
{
    match block_type {
        CS_CORE => BlockKind::ClientCore,
        CS_NET => BlockKind::ClientNetwork,
        _ => BlockKind::Other,
    }
}

/// The least length of a block.
fn least_length(kind: BlockKind) -> u16
    ensures length { result ≡ least_length kind }
    ensures header { 4 ≤ result }
{
    match kind {
        BlockKind::ClientCore => CORE_SIZE,
        BlockKind::ClientNetwork => HEADER_SIZE,
        BlockKind::Other => HEADER_SIZE,
    }
}

/// Whether no block of this kind was found before.
fn is_new(found: ClientBlocks, kind: BlockKind) -> bool
    ensures { result ≡ is_new found kind }
{
    match kind {
        BlockKind::ClientCore => found.desktop.is_none(),
        BlockKind::ClientNetwork => found.channels.is_none(),
        BlockKind::Other => true,
    }
}
