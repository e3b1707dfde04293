//! The toolkit's session of a card.
ghost use Rattle.std.specs.Prelude.{◌≡◌, ◌≢◌, IfOk};
ghost use Rattle.toolkit_model.specs.Sessions.{fresh_session};
ghost use Rattle.card_model.specs.Answers.{told_pending};

use event_dispatch::{Late, Waiting};
use frame_store::FrameStore;
use proactive_handler::Session;
use std::alloc::Global;
use uicc_types::{OutOfMemory, StatusWord};

/// A session as it is after a reset. All the memory that it ever needs is taken here.
pub fn fresh_session(alloc: Global) -> Result<Session, OutOfMemory>
    ensures ok { IfOk result (λ session. session ≡ fresh_session) }
{
    let late = FrameStore::new(alloc, Late::MOST, Late::ROOM)?;
    let waiting = FrameStore::new(alloc, Waiting::MOST, Waiting::ROOM)?;
    Ok(Session::new(late, waiting))
}

/// `91XX` in place of `9000` where a command of so many bytes is there to be fetched (ETSI TS 102 221, 7.4.2.1).
pub fn told_pending(pending: Option<u8>, status: StatusWord) -> StatusWord
    ensures value { result ≡ told_pending pending status }
    ensures usual { status.0 ≢ StatusWord.MEMORY_PROBLEM.0 → result.0 ≢ StatusWord.MEMORY_PROBLEM.0 }
    ensures denied { result.0 ≡ StatusWord.SECURITY_NOT_SATISFIED.0 → status ≡ StatusWord.SECURITY_NOT_SATISFIED }
{
    if let Some(count) = pending {
        if status.0 == StatusWord::DONE.0 {
            return StatusWord(0x9100 + u16::from(count));
        }
    }
    status
}
