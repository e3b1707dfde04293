//! The exchanges of which a session of the toolkit is made.
ghost use Rattle.phone_runs.specs.Exchanges.{DetailsAreRead, ResponsesAreRead, AnnouncedCommandsAreFetched, ResponsesAreTaken};

use card_laws::{cards_go_on, fetches_give_commands};
use comprehension_tlv::exact_reading;
use toolkit_commands::spelled_is_read;

/// A handset finds the details of a command that a card spelled, also where it can't read the command itself.
pub fn details_are_read()
    ensures { DetailsAreRead }
{
    exact_reading();
    spelled_is_read();
}

/// A card reads each response of a handset as one to the command whose details it has.
pub fn responses_are_read()
    ensures { ResponsesAreRead }
{
    exact_reading();
}

/// A FETCH of as many bytes as the command has that waits is answered with the command and `9000`.
pub fn announced_commands_are_fetched()
    ensures { AnnouncedCommandsAreFetched }
{
    fetches_give_commands();
}

/// A TERMINAL RESPONSE to the command that was fetched is answered `9000`, or `91XX` where the next one waits.
pub fn responses_are_taken()
    ensures { ResponsesAreTaken }
{
    cards_go_on();
    responses_are_read();
}
