//! What a share PDU asks for is done.

ghost use Rattle.std.specs.Prelude.{◌≡◌, Ok, IfOk};
ghost use Rattle.conn_rules.specs.Deeds.{answered, done, deed_judged};
ghost use Rattle.conn_rules.specs.Answers.{tells, replies};
ghost use Rattle.conn_rules.specs.Packets.{mcs_place};
ghost use Rattle.conn_core.specs.Judges.{IsWritable};

use crate::domain::{FOREIGN, goes_to, user_channel};
use crate::refusals::BAD_SHARE;
use caps_sets::Confirmed;
use conn_rules::{Answer, ConnStep, Deed, News, Refusal, Reply, SharePhase, Stage};
use share_pdu::Final;

/// What comes of what the share PDU at a place asks for: it is done for the client's own user channel as initiator, and refused where
/// it isn't expected.
pub fn judge_deed(
    channels: u8,
    initiator: u16,
    phase: SharePhase,
    place: usize,
    deed: Option<Deed>,
) -> Result<Answer, Refusal>
    ensures exact { result ≡ deed_judged channels mcs_place initiator phase place deed }
    ensures writable { IfOk result (λ answer. IsWritable answer.reply) }
{
    match deed {
        Some(deed) => {
            if initiator != user_channel(channels) {
                return Err(FOREIGN);
            }
            Ok(done(channels, phase, deed))
        }
        None => Err(Refusal {
            k: BAD_SHARE,
            at: place,
        }),
    }
}

/// It is done.
fn done(channels: u8, phase: SharePhase, deed: Deed) -> Answer
    ensures answer { done channels phase deed ≡ Ok result }
    ensures writable { IsWritable result.reply }
{
    match deed {
        Deed::Nothing => goes_to(Stage::Shares { channels, phase }),
        Deed::Confirm(confirmed) => goes_to(Stage::Shares {
            channels,
            phase: SharePhase::Finish {
                confirmed,
                next: Final::Synchronize,
            },
        }),
        Deed::Answer { confirmed, which } => answered(channels, confirmed, which),
        Deed::Tell => tells(News::Pdu, Stage::Shares { channels, phase }),
        Deed::Suppress(stop) => tells(
            News::Step(ConnStep::Suppress(stop)),
            Stage::Shares { channels, phase },
        ),
        Deed::Shutdown => tells(News::Step(ConnStep::Shutdown), Stage::Over),
    }
}

/// The answer that tells something without a reply.
pub fn tells(news: News, next: Stage) -> Answer
    ensures answer { tells news next ≡ Ok result }
    ensures writable { IsWritable result.reply }
{
    Answer {
        reply: Reply::Nothing,
        news,
        next,
    }
}

/// An answer of the finalisation.
fn answered(channels: u8, confirmed: Confirmed, which: Final) -> Answer
    ensures answer { answered channels confirmed which ≡ Ok result }
    ensures writable { IsWritable result.reply }
{
    let user = user_channel(channels);
    let reply = Reply::Final { which, user };
    match which {
        Final::Synchronize => goes_on(channels, reply, confirmed, Final::Cooperate),
        Final::Cooperate => goes_on(channels, reply, confirmed, Final::Granted),
        Final::Granted => goes_on(channels, reply, confirmed, Final::FontMap),
        Final::FontMap => Answer {
            reply,
            news: News::Step(ConnStep::Ready(confirmed)),
            next: Stage::Shares {
                channels,
                phase: SharePhase::Ready,
            },
        },
    }
}

/// The answer with this reply after which that one is next.
fn goes_on(channels: u8, reply: Reply, confirmed: Confirmed, next: Final) -> Answer
    ensures answer { replies reply (Stage.Shares channels (SharePhase.Finish confirmed next)) ≡ Ok result }
    ensures reply { result.reply ≡ reply }
{
    Answer {
        reply,
        news: News::Nothing,
        next: Stage::Shares {
            channels,
            phase: SharePhase::Finish { confirmed, next },
        },
    }
}
