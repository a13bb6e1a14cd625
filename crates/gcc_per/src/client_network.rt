//! Client Network Data, CS_NET (MS-RDPBCGR, 2.2.1.3.4).
//!
//! | offset | size | field | value |
//! |---|---|---|---|
//! | 0 | 4 | header | type `03 C0`, length |
//! | 4 | 4 | channelCount | at most 31 |
//! | 8 | 12 for each channel | channelDefArray | name and options, not read |

ghost use Rattle.std.specs.Prelude.{[]};
ghost use Rattle.wire_num.specs.Layout.{fields_at};
ghost use Rattle.wire_num.specs.Cursor.{rest, ReadsFieldsAs, ReadsCaused};
ghost use Rattle.gcc_per.specs.ClientNetwork.{channel_count_at, channel_definitions, channels_at};

use crate::gcc_fault::Cause;
use wire_num::{Cursor, Short};

/// The most static virtual channels.
const MOST_CHANNELS: u32 = 31;
/// The bytes of a CHANNEL_DEF: a name of 8 and options of 4.
const CHANNEL_DEF_SIZE: usize = 12;

/// Reads the content of a CS_NET, and gives the number of channels. What follows the channels isn't read.
#[tactic(auto, unfolding(crate::specs::ClientNetwork::channels_at))]
pub fn read_channels(cursor: &mut Cursor<'_>) -> Result<u16, Cause>
    ensures { ReadsCaused channels_at result cursor.old cursor.new }
{
    let count = read_channel_count(cursor)?;
    skip_definitions(count, cursor)?;
    Ok(count)
}

/// Reads the number of channels.
#[tactic(auto, unfolding(crate::specs::ClientNetwork::channel_count_at))]
fn read_channel_count(cursor: &mut Cursor<'_>) -> Result<u16, Cause>
    ensures { ReadsCaused channel_count_at result cursor.old cursor.new }
{
    let at = cursor.at();
    let count = cursor.u32_le()?;
    if count > MOST_CHANNELS {
        cursor.go_to(at);
        return Err(Cause::Crowded);
    }
    Ok(count as u16)
}

/// Goes past so many channels.
fn skip_definitions(count: u16, cursor: &mut Cursor<'_>) -> Result<(), Short>
    ensures { ReadsFieldsAs (λ _. []) (fields_at (channel_definitions count)) result cursor.old cursor.new }
{
    for _ in 0..count {
        cursor.bytes(CHANNEL_DEF_SIZE)?;
    }
    Ok(())
}
