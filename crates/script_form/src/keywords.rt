//! The fixed words of script lines.
ghost use Rattle.script_form.specs.Reads.{Reads};
ghost use Rattle.script_form.specs.Values.{IsKeyword, IsNetworkAct, IsStructure, IsUserAct};

/// The word that a line begins with.
#[derive(Clone, Copy, Debug)]
pub enum Keyword {
    Df,
    Ef,
    Fill,
    Rec,
    Pin,
    Row,
    Start,
    Apdu,
    Tpdu,
    Reset,
    Cut,
    Fail,
    ReadFail,
    User,
    Net,
    Time,
    Cmd,
}

/// The structure of an EF (ETSI TS 102 221, 8.2.2).
#[derive(Clone, Copy, Debug)]
pub enum Structure {
    Transparent,
    Linear,
    Cyclic,
}

/// What the user of a handset does.
#[derive(Clone, Copy, Debug)]
pub enum UserAct {
    Confirm,
    End,
    Back,
    Wait,
    Enter,
    Pick,
    Press,
    Idle,
    Dial,
}

/// What the network does to a handset, or to the channels of a terminal.
#[derive(Clone, Copy, Debug)]
pub enum NetworkAct {
    Place,
    Poll,
    Echo,
    Lose,
}

pub fn keyword_of(word: &[u8]) -> Option<Keyword>
    ensures { Reads (IsKeyword word.now) result }
{
    match word {
        b"df" => Some(Keyword::Df),
        b"ef" => Some(Keyword::Ef),
        b"fill" => Some(Keyword::Fill),
        b"rec" => Some(Keyword::Rec),
        b"pin" => Some(Keyword::Pin),
        b"row" => Some(Keyword::Row),
        b"start" => Some(Keyword::Start),
        b"apdu" => Some(Keyword::Apdu),
        b"tpdu" => Some(Keyword::Tpdu),
        b"reset" => Some(Keyword::Reset),
        b"cut" => Some(Keyword::Cut),
        b"fail" => Some(Keyword::Fail),
        b"readfail" => Some(Keyword::ReadFail),
        b"user" => Some(Keyword::User),
        b"net" => Some(Keyword::Net),
        b"time" => Some(Keyword::Time),
        b"cmd" => Some(Keyword::Cmd),
        _ => None,
    }
}

pub fn structure_of(word: &[u8]) -> Option<Structure>
    ensures { Reads (IsStructure word.now) result }
{
    match word {
        b"t" => Some(Structure::Transparent),
        b"l" => Some(Structure::Linear),
        b"c" => Some(Structure::Cyclic),
        _ => None,
    }
}

pub fn user_act_of(word: &[u8]) -> Option<UserAct>
    ensures { Reads (IsUserAct word.now) result }
{
    match word {
        b"ok" => Some(UserAct::Confirm),
        b"end" => Some(UserAct::End),
        b"back" => Some(UserAct::Back),
        b"none" => Some(UserAct::Wait),
        b"type" => Some(UserAct::Enter),
        b"pick" => Some(UserAct::Pick),
        b"press" => Some(UserAct::Press),
        b"idle" => Some(UserAct::Idle),
        b"dial" => Some(UserAct::Dial),
        _ => None,
    }
}

pub fn network_act_of(word: &[u8]) -> Option<NetworkAct>
    ensures { Reads (IsNetworkAct word.now) result }
{
    match word {
        b"place" => Some(NetworkAct::Place),
        b"poll" => Some(NetworkAct::Poll),
        b"echo" => Some(NetworkAct::Echo),
        b"drop" => Some(NetworkAct::Lose),
        _ => None,
    }
}
