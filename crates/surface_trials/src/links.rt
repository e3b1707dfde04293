//! What a T=0 link passes for a handset, and that a handset whose card is behind one uses it: the trace is the same without it.
ghost use Rattle.std.specs.Prelude.{◌≡◌, ◌≤◌, length};
ghost use Rattle.handset_model.specs.History.{span_of};
ghost use Rattle.handset_model.specs.Legal.{IsBounded};

use applet_trait::Applet;
use byte_streams::{ListSink, Sink};
use card_core::{CardOver, OpenFault};
use eeprom_model::BenchEeprom;
use layout_section::{Section, format};
use phone_runs::{Places, hear_line, start_phone};
use run_steps::{CardEnd, Carrier};
use script_form::{HandsetLine, Note};
use std::alloc::Global;
use std::test::Fail;
use store_form::Store;
use t0_link::{Endpoint, Link, LinkFault, is_carried};
use terminal_side::{Next, Phone};
use uicc_types::{Answer, ApduBytes, Octets, Plan, StatusWord};
use update_journal::Journal;

const SIZE: usize = 65_536;

/// More than a handset does for one line.
const MOST_STEPS: usize = 16;

/// A card's end that notes the last APDU that it was passed, and how many there were. It answers each with the same data.
#[derive(Drop)]
struct NotingEnd {
    passed: ApduBytes,
    count: u32,
    body: &'static [u8],
}

impl NotingEnd {
    fn new(body: &'static [u8]) -> Self {
        NotingEnd {
            passed: ApduBytes::new(),
            count: 0,
            body,
        }
    }
}

impl Endpoint for NotingEnd {
    ghost use Rattle.std.specs.Prelude.{true};

    ghost is_on = { λ end. true };

    ghost losses = { λ end. 0 };

    ghost step = { λ old apdu answer new. Unit {0} };

    ghost lost = { λ old apdu new. ⊥ };

    fn transmit(&mut self, apdu: &[u8], out: &mut Answer) -> Result<(), LinkFault> {
        self.passed.clear();
        if self.passed.append(apdu).is_ok() {
            self.count = self.count.saturating_add(1);
        }
        out.status = StatusWord(0x9000);
        out.body.clear();
        if out.body.append(self.body).is_err() {
            out.status = StatusWord(0x6F00);
        }
        Ok(())
    }
}

/// Does what a handset asks for, over a link to an endpoint that notes, and answers how many commands it sent.
fn serve(phone: &mut Phone, link: &mut Link, end: &mut NotingEnd, answer: &mut Answer) -> u32 {
    let mut sent = 0;
    let mut apdu = ApduBytes::new();
    let mut note = Note::Call;
    for _ in 0..MOST_STEPS {
        match phone.next_into(&mut apdu, &mut note) {
            Next::Send => {
                if !is_carried(apdu.as_slice())
                    || link.command(end, apdu.as_slice(), answer).is_err()
                {
                    return sent;
                }
                phone.take_answer(answer);
                sent = u32::saturating_add(sent, 1);
            }
            Next::Show => {}
            Next::Reset | Next::Nothing => return sent,
        }
    }
    sent
}

/// Has something happen at a handset at once, where its clock is not too far.
fn say(phone: &mut Phone, line: &HandsetLine) -> bool
    requires bounded { IsBounded line.now }
    requires at_once { span_of line.now ≡ 0 }
{
    let is_early = phone.clock() < 1_000_000;
    if is_early {
        phone.hear(line);
    }
    is_early
}

// A handset's STATUS is passed with Le, and an envelope of call control as one APDU: the link answers GET RESPONSE itself.
#[test]
fn one_apdu_is_passed_for_a_command(rt: HostRuntime) {
    let mut phone = Phone::new();
    let mut link = Link::new();
    let mut answer = Answer::new();
    let mut end = NotingEnd::new(b"");
    phone.start();
    let first = serve(&mut phone, &mut link, &mut end, &mut answer);
    assert_eq!(rt; first, end.count);

    let mut end = NotingEnd::new(b"");
    assert!(rt; say(&mut phone, &HandsetLine::NetPoll));
    let polls = serve(&mut phone, &mut link, &mut end, &mut answer);
    assert_eq!(rt; polls, 1);
    assert_eq!(rt; end.count, 1);
    assert!(rt; end.passed.as_slice() == b"\x80\xF2\x00\x0C\x00".as_slice());

    let mut end = NotingEnd::new(b"\x00\x00");
    assert!(rt;
        say(
            &mut phone,
            &HandsetLine::UserDial(Octets::from_slice(b"112"))
        )
    );
    let envelopes = serve(&mut phone, &mut link, &mut end, &mut answer);
    assert_eq!(rt; envelopes, 1);
    assert_eq!(rt; end.count, 1);
    assert!(rt; end.passed.as_slice().starts_with(b"\x80\xC2\x00\x00"));
    assert!(rt; answer.body.as_slice() == b"\x00\x00".as_slice());
}

/// What a link answers to GET RESPONSE that keeps the data of a SELECT, after a line of a handset whose commands go by `carrier`: the
/// same link, or none. None where something else failed.
fn answered_behind<S: Store + Drop, B: Applet>(
    alloc: Global,
    store: S,
    section: &Section,
    cast: Vec<Option<B>>,
    is_linked: bool,
) -> Result<Option<StatusWord>, Fail>
    requires size { S.byte_count store ≡ SIZE }
    requires shelves { length cast.items ≤ 32 }
{
    let mut store = store;
    if format(&mut store, section).is_err() {
        return Ok(None);
    }
    match CardOver::open(alloc, store, cast) {
        Ok(card) => {
            let mut card = CardEnd::new(card, Plan::NONE);
            let mut trace = ListSink::new(alloc, 4096, &[])?;
            Ok(polled(&mut card, &mut trace, is_linked))
        }
        Err(_) => Ok(None),
    }
}

fn polled<S: Store + Drop, B: Applet, W: Sink>(
    card: &mut CardEnd<S, B>,
    trace: &mut W,
    is_linked: bool,
) -> Option<StatusWord> {
    let mut phone = Phone::new();
    let mut answer = Answer::new();
    let mut places = Places::new();
    let mut link = Link::new();
    start_phone(card, &mut Carrier::Direct, &mut phone, &mut places, trace).ok()?;
    link.exchange(card, b"\x00\xA4\x00\x04\x02\x3F\x00", &mut answer)
        .ok()?;
    let length = answer.status.0.checked_sub(0x6100)?;
    let get_response = [0x00, 0xC0, 0x00, 0x00, (length % 256) as u8];
    let poll = HandsetLine::NetPoll;
    if is_linked {
        let mut carrier = Carrier::Link(link);
        hear_line(card, &mut carrier, &mut phone, &poll, &mut places, trace).ok()?;
        match carrier {
            Carrier::Link(behind) => link = behind,
            Carrier::Direct => return None,
        }
    } else {
        hear_line(
            card,
            &mut Carrier::Direct,
            &mut phone,
            &poll,
            &mut places,
            trace,
        )
        .ok()?;
    }
    link.exchange(card, &get_response, &mut answer).ok()?;
    Some(answer.status)
}

// The handset's STATUS goes by the link, which drops what it kept.
#[test]
fn a_handset_uses_its_link(rt: HostRuntime) -> Result<(), Fail> {
    for (is_linked, status) in [(true, 0x6985), (false, 0x9000)] {
        let section = Section::new(rt.alloc())?;
        let store = Journal::new(BenchEeprom::new(rt.alloc(), SIZE)?);
        let cast: Vec<Option<Box<dyn Applet>>> = Vec::new(rt.alloc());
        let found = answered_behind(rt.alloc(), store, &section, cast, is_linked)?;
        assert_eq!(rt; found, Some(StatusWord(status)));
    }
    Ok(())
}
