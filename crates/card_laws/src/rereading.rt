//! What is read where it was put. The function does nothing: its contract is the law.
ghost use Rattle.card_laws.specs.Fitting.{WhatStandsFits};
ghost use Rattle.card_laws.specs.FcpLaws.{FcpAreNotCut, FcpAreObjects, FcpTellFiles, SelectAnswersFcp, StatusAnswersFcp};
ghost use Rattle.card_laws.specs.ReadingLaws.{BytesAreRead, RecordsAreRead};

/// READ BINARY gives the bytes that UPDATE BINARY put, and READ RECORD the record that UPDATE RECORD put, which in a cyclic file is the
/// first.
pub fn what_is_put_is_read()
    ensures bytes { BytesAreRead }
    ensures records { RecordsAreRead }
{}

/// What SELECT and STATUS answer, before Le cuts it, is one object of at most 129 bytes, and falls apart into just the objects that tell
/// of the file; no Le of so many or more cuts it. Two files of which the same is told are alike in all that is told.
pub fn what_is_told_is_read()
    ensures objects { FcpAreObjects }
    ensures select { SelectAnswersFcp }
    ensures status { StatusAnswersFcp }
    ensures whole { FcpAreNotCut }
    ensures files { FcpTellFiles }
{}

/// Whatever bytes the memory of a card has, an identifier of a file that it stands for has two, so has the EF_ARR of its rule and the next
/// sequence number, the record of a rule has one, and a PIN has eight.
pub fn what_stands_fits()
    ensures { WhatStandsFits }
{}
