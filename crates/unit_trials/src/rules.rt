//! Access rules.

use crate::rows::Row;
use access_rules::{Op, Verified, allowed};

const OPERATIONS: [(&str, Op); 8] = [
    ("read binary", Op::ReadBinary),
    ("read record", Op::ReadRecord),
    ("search", Op::Search),
    ("update binary", Op::UpdateBinary),
    ("update record", Op::UpdateRecord),
    ("increase", Op::Increase),
    ("deactivate", Op::Deactivate),
    ("activate", Op::Activate),
];

/// `rule KEY BYTES`: the operations that the record allows whoever presented this key: `nobody`, `pin1`, `pin2` or `adm1`.
pub fn show_rule(row: &mut Row<'_>) {
    let key = row.word();
    if !["nobody", "pin1", "pin2", "adm1"].contains(&key) {
        row.reject();
    }
    let seen = Verified {
        pin1: key == "pin1",
        pin2: key == "pin2",
        adm1: key == "adm1",
    };
    let record = row.all_bytes();
    for (name, operation) in OPERATIONS {
        if allowed(record.as_slice(), operation, &seen) {
            row.part();
            row.show(name);
        }
    }
    row.end_list();
}
