//! What the class byte of a command says (ETSI TS 102 221, 10.1.1).
ghost use Rattle.std.specs.Prelude.{◌≡◌, ◌==◌, ◌||◌, ◌⊎◌, true};

use crate::commands::Command;

impl Command<'_> {
    ghost use Rattle.apdu_form.specs.Classes.{asks_secure_messaging, channel_of, family, is_class, names_channel};

    /// The class without its lower half, in which `0X` and `8X` name a channel: `00`, `80` or `F0` of each class that is known, and of others too (`FF` has `F0`).
    pub fn family(&self) -> u8
        ensures { result ≡ family self.now.class }
    {
        self.class / 16 * 16
    }

    /// Whether the class is `00` or `80`: one of the basic channel, without secure messaging.
    pub fn has_plain_class(&self) -> bool
        ensures value { result ≡ (self.now.class == 0x00 || self.now.class == 0x80) }
        ensures which { result ≡ true → (self.now.class ≡ 0x00) ⊎ (self.now.class ≡ 0x80) }
        ensures family { result ≡ true → family self.now.class ≡ self.now.class }
    {
        self.class == 0x00 || self.class == 0x80
    }

    // Whether the lower half of the class names a channel.
    fn names_channel(&self) -> bool
        ensures { result ≡ names_channel self.now.class }
    {
        self.family() == 0x00 || self.family() == 0x80
    }

    /// Whether the class is one of `0X`, `8X` and `F0`.
    pub fn has_known_class(&self) -> bool
        ensures { result ≡ is_class self.now.class }
    {
        self.names_channel() || self.class == 0xF0
    }

    /// Whether b4 or b3 of the class asks for secure messaging.
    pub fn asks_secure_messaging(&self) -> bool
        ensures { result ≡ asks_secure_messaging self.now.class }
    {
        self.names_channel() && self.class / 4 % 4 != 0
    }

    /// The channel that the class names, 0 to 3: that in b2 and b1 of `0X` and `8X`, or the basic one.
    pub fn channel(&self) -> u8
        ensures { result ≡ channel_of self.now.class }
    {
        if self.names_channel() {
            self.class % 4
        } else {
            0
        }
    }
}
