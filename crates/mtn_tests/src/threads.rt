// Values that one thread makes and another reads. That these functions are proved is the fact: their bound asks for it.
use mtn_ancestry::PosSet;
use mtn_records::{LogRecord, RosterRecord};

fn crosses_threads<T: Send + Sync>() {}

#[test]
fn values_cross_threads() {
    crosses_threads::<PosSet>();
    crosses_threads::<RosterRecord>();
    crosses_threads::<LogRecord>();
}
