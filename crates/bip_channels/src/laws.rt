//! What holds of the channels themselves.
ghost use Rattle.std.specs.Prelude.{◌≡◌, ℕ, ◌+◌, List, Option, Some, None, true, is_none, position, slice_index_or};
ghost use Rattle.bip_channels.specs.Channels.{BipChannel, new_channel, carried_out};
ghost use Rattle.bip_channels.specs.History.{Happened, Tells, IsFront, channel_after, given, got};
ghost use Rattle.bip_channels.specs.Rules.{is_available};
ghost use Rattle.bip_channels.specs.Traffic.{Occurrence, channel_at, given_to, got_from};
ghost use Rattle.bip_channels.specs.declared.commands.BipCommand.TheVariants.{OpenChannel, CloseChannel};

/// On each channel, since it was opened, whatever happened: what the card got is what it gave, in order, up to some byte. The
/// bytes that were given are those that were sent and then those that are kept for later, the bytes that were got are those
/// that were taken, and the bounds of a channel are kept.
pub fn received_is_prefix()
    ensures tells { (size : ℕ) (history : List Happened) → is_available size ≡ true
        → Tells (channel_after size history) (given size history) (got size history) }
    ensures prefix { (size : ℕ) (history : List Happened) → is_available size ≡ true
        → IsFront (got size history) (given size history) }

    // The number of a closed channel is given again, and its bytes are not.
    ensures closes { (channels : List (Option BipChannel)) (place : ℕ)
        → slice_index_or (carried_out (CloseChannel (place + 1)) channels).channels place None ≡ None }
    ensures opens { (channels : List (Option BipChannel)) (size place : ℕ)
        → is_available size ≡ true → position is_none channels ≡ Some place
        → slice_index_or (carried_out (OpenChannel size) channels).channels place None ≡ Some (new_channel size) }
{}

/// The same of every channel of the terminal, whatever happened to it: commands in any order, also such that can't be read,
/// bytes that came back and links that were dropped. What counts is what was given and got since the channel was opened.
pub fn each_channel_tells()
    ensures tells { (place : ℕ) (history : List Occurrence) (channel : BipChannel)
        → channel_at place history ≡ Some channel
        → Tells channel (given_to place history) (got_from place history) }
    ensures prefix { (place : ℕ) (history : List Occurrence) (channel : BipChannel)
        → channel_at place history ≡ Some channel
        → IsFront (got_from place history) (given_to place history) }
{}
