//! The response of the handset to the command that is outstanding.
ghost use Rattle.std.specs.Prelude.{ℕ, ◌≡◌, ◌≢◌, ◌≤◌, length, true, IfSome, OnOk, Some, is_some};
ghost use Rattle.card_state.specs.Memory.{memory};
ghost use Rattle.toolkit_commands.specs.Replies.{replied};
ghost use Rattle.applet_trait.specs.Minds.{minds_of};
ghost use Rattle.toolkit_model.specs.Commands.{unanswered, answered, responded};
ghost use Rattle.proactive_handler.specs.Boxes.{IsSameBox, AreForOthers};
ghost use Rattle.proactive_handler.specs.Steps.{scene, Moves};
ghost use Rattle.proactive_handler.specs.Reached.{TurnsOnly};
ghost use Rattle.proactive_handler.specs.Scenes.{IsInService, KeepsScene};

use crate::driving::drive_in_place;
use crate::running::run_alone;
use crate::session::Session;
use applet_trait::{Applet, Stimulus};
use card_commits::tables_tell_states;
use card_state::Loaded;
use event_dispatch::Index;
use store_form::{Store, StoreFault};
use toolkit_commands::{Response, ResponseRef};
use uicc_types::Octets;

// `Session::respond`, over boxes in a slice and a response that stays where it is.
fn respond_in_place<S: Store, B: Applet>(
    store: &mut S,
    loaded: &mut Loaded,
    index: &mut Index,
    cast: &mut [Option<B>],
    session: &mut Session,
    response: &ResponseRef<'_>,
) -> Result<(), StoreFault>
    requires service { IsInService
        (scene (memory S.Store store.old loaded.old) index.old session.old (minds_of B.mind cast.old)) cast.old }
    requires fetched { is_some (unanswered session.old) ≡ true }
    requires short { length response.now.text.now ≤ 255 }
    ensures moves { IfSome (unanswered session.old) (λ out. Moves (answered out (replied response.now))
        (scene (memory S.Store store.old loaded.old) index.old session.old (minds_of B.mind cast.old))
        (scene (memory S.Store store.new loaded.new) index.new session.new (minds_of B.mind cast.new)) result) }
    ensures turns { IfSome (unanswered session.old) (λ out. TurnsOnly (answered out (replied response.now))
        (scene (memory S.Store store.old loaded.old) index.old session.old (minds_of B.mind cast.old))
        (scene (memory S.Store store.new loaded.new) index.new session.new (minds_of B.mind cast.new))
        cast.old cast.new result) }
    ensures untold { (other : ℕ) → IfSome (unanswered session.old) (λ out. out.owner ≢ Some other)
        → IsSameBox other cast.old cast.new }
    ensures keeps { KeepsScene
        (scene (memory S.Store store.old loaded.old) index.old session.old (minds_of B.mind cast.old))
        (scene (memory S.Store store.new loaded.new) index.new session.new (minds_of B.mind cast.new)) result }
{
    // This call is a law, and does nothing.
    tables_tell_states();
    match session.answered() {
        Some(shelf) => {
            let stimulus = Stimulus::Response {
                result: response.result,
                item: response.item,
                text: Octets::from_slice(response.text),
            };
            run_alone(store, loaded, index, cast, session, shelf, &stimulus, true)?;
            Ok(())
        }
        None => Ok(()),
    }
}

/// `Session::respond` and then `Session::drive`, over boxes in a slice and a response that stays where it is. The boxes of applets
/// that neither sent the command nor have late events are left as they are, also where a commit meets a fault.
///
/// Where a commit meets a fault, the table has the rows before that commit, and the memory these or those after it; of the index,
/// the session and the minds of the applets that took a turn before it nothing is said then. The other boxes are as they were.
pub fn respond_and_drive<S: Store, B: Applet>(
    store: &mut S,
    loaded: &mut Loaded,
    index: &mut Index,
    cast: &mut [Option<B>],
    session: &mut Session,
    response: &ResponseRef<'_>,
) -> Result<(), StoreFault>
    requires service { IsInService
        (scene (memory S.Store store.old loaded.old) index.old session.old (minds_of B.mind cast.old)) cast.old }
    requires fetched { is_some (unanswered session.old) ≡ true }
    requires short { length response.now.text.now ≤ 255 }
    ensures moves { IfSome (unanswered session.old) (λ out. Moves (responded out (replied response.now))
        (scene (memory S.Store store.old loaded.old) index.old session.old (minds_of B.mind cast.old))
        (scene (memory S.Store store.new loaded.new) index.new session.new (minds_of B.mind cast.new)) result) }
    ensures turns { IfSome (unanswered session.old) (λ out. TurnsOnly (responded out (replied response.now))
        (scene (memory S.Store store.old loaded.old) index.old session.old (minds_of B.mind cast.old))
        (scene (memory S.Store store.new loaded.new) index.new session.new (minds_of B.mind cast.new))
        cast.old cast.new result) }
    ensures untold { (other : ℕ) → IfSome (unanswered session.old) (λ out. out.owner ≢ Some other)
        → AreForOthers other session.old.late → IsSameBox other cast.old cast.new }
    ensures keeps { KeepsScene
        (scene (memory S.Store store.old loaded.old) index.old session.old (minds_of B.mind cast.old))
        (scene (memory S.Store store.new loaded.new) index.new session.new (minds_of B.mind cast.new)) result }
{
    respond_in_place(store, loaded, index, cast, session, response)?;
    drive_in_place(store, loaded, index, cast, session)
}

// A response, where it stands.
fn in_place(response: &Response) -> ResponseRef<'_>
    ensures value { replied result ≡ response.now }
    ensures short { length result.text.now ≤ 255 }
{
    ResponseRef {
        result: response.result,
        item: response.item,
        text: response.text.as_slice(),
    }
}

impl Session {
    /// A TERMINAL RESPONSE to the command that was fetched, which was accepted: nothing is outstanding any more. The response is
    /// told the applet that sent the command, which goes on, and nobody else; to a command of the card's own the card does nothing.
    /// The boxes of applets that didn't send the command are left as they are, also where a commit meets a fault. `drive` is to end
    /// the command then.
    ///
    /// Where a commit meets a fault, the table has the rows before that commit, and the memory these or those after it; of the index,
    /// the session and the mind of the applet that took a turn nothing is said then. The other boxes are as they were.
    pub fn respond<S: Store, B: Applet>(
        &mut self,
        store: &mut S,
        loaded: &mut Loaded,
        index: &mut Index,
        cast: &mut Vec<Option<B>>,
        response: &Response,
    ) -> Result<(), StoreFault>
        requires service { IsInService
            (scene (memory S.Store store.old loaded.old) index.old self.old (minds_of B.mind cast.old.items)) cast.old.items }
        requires fetched { is_some (unanswered self.old) ≡ true }
        ensures moves { IfSome (unanswered self.old) (λ out. Moves (answered out response.now)
            (scene (memory S.Store store.old loaded.old) index.old self.old (minds_of B.mind cast.old.items))
            (scene (memory S.Store store.new loaded.new) index.new self.new (minds_of B.mind cast.new.items)) result) }
        ensures turns { IfSome (unanswered self.old) (λ out. TurnsOnly (answered out response.now)
            (scene (memory S.Store store.old loaded.old) index.old self.old (minds_of B.mind cast.old.items))
            (scene (memory S.Store store.new loaded.new) index.new self.new (minds_of B.mind cast.new.items))
            cast.old.items cast.new.items result) }
        ensures untold { (other : ℕ) → IfSome (unanswered self.old) (λ out. out.owner ≢ Some other)
            → IsSameBox other cast.old.items cast.new.items }
        ensures keeps { KeepsScene
            (scene (memory S.Store store.old loaded.old) index.old self.old (minds_of B.mind cast.old.items))
            (scene (memory S.Store store.new loaded.new) index.new self.new (minds_of B.mind cast.new.items)) result }
        ensures ready { OnOk result (IsInService
            (scene (memory S.Store store.new loaded.new) index.new self.new (minds_of B.mind cast.new.items)) cast.new.items) }
    {
        let reply = in_place(response);
        respond_in_place(store, loaded, index, cast, self, &reply)
    }
}
