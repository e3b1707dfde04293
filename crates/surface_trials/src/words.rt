//! Byte lists, what an answer has, plans, steps, and the items of a trace.

use uicc_types::{
    Answer, AnswerData, ApduBytes, ByteList, CutAt, FailAt, Full, Kept, Octets, Plan, ShortText,
    StatusWord, Step, TraceItem,
};

/// An empty list of each length.
fn empty_lists() -> (Octets, ApduBytes, AnswerData, ShortText, Kept) {
    (
        Octets::new(),
        ApduBytes::new(),
        AnswerData::new(),
        ShortText::new(),
        Kept::new(),
    )
}

/// Moves what a list has to another one, with these bytes after it.
fn moved<const N: usize>(list: &mut ByteList<N>, bytes: &[u8]) -> Result<ByteList<N>, Full> {
    list.push(1)?;
    list.append(bytes)?;
    let copy: ByteList<N> = list.copy();
    list.clear();
    Ok(copy)
}

fn plan_of(cut: CutAt, fail: FailAt) -> Plan {
    Plan {
        cut: Some(cut),
        fail: Some(fail),
        read_fail: Some(1),
    }
}

fn parts_of(answer: Answer) -> (AnswerData, StatusWord) {
    let Answer { body, status } = answer;
    (body, status)
}

fn is_command(step: &Step) -> bool {
    match step {
        Step::Apdu(_apdu) => true,
        Step::Reset | Step::Plan(Plan { .. }) => false,
    }
}

/// The bytes that an item of a trace shows.
fn shown_in(item: &TraceItem) -> &[u8] {
    match item {
        TraceItem::Command(apdu) => apdu.as_slice(),
        TraceItem::Answer(body, StatusWord(_)) => body.as_slice(),
        TraceItem::Cut | TraceItem::Off | TraceItem::Reset | TraceItem::EepromFailed => &[],
    }
}
