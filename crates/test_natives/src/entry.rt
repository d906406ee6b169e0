//! Each operation of a mutable entry, with extreme values.

use jtypes::{Effect, JavaFault, RefValue};
use mutentry::*;

#[test]
fn an_absent_entry_is_made_and_removed(rt: HostRuntime) {
    let mut entry = EntryState::of(None);
    assert!(rt; !entry.exists());
    assert_eq!(rt; entry.get_value(), None);
    assert_eq!(rt; entry.effect(), Effect::Keep);

    assert_eq!(rt; entry.set_value(RefValue::Long(i64::MIN)), Ok(()));
    assert!(rt; entry.exists());
    assert_eq!(rt; entry.before(), None);
    assert_eq!(rt; entry.get_value(), Some(i64::MIN));
    assert_eq!(rt; entry.effect(), Effect::Put(i64::MIN));

    entry.remove();
    assert!(rt; !entry.exists());
    assert_eq!(rt; entry.effect(), Effect::Keep);
}

#[test]
fn an_existing_entry_is_kept_put_or_deleted(rt: HostRuntime) {
    let mut entry = EntryState::of(Some(7));
    assert_eq!(rt; entry.effect(), Effect::Keep);
    for (value, effect) in [
        (7, Effect::Keep),
        (0, Effect::Put(0)),
        (i64::MIN, Effect::Put(i64::MIN)),
        (i64::MAX, Effect::Put(i64::MAX)),
    ] {
        assert_eq!(rt; entry.set_value(RefValue::Long(value)), Ok(()));
        assert_eq!(rt; entry.effect(), effect, "at {value}");
        assert_eq!(rt; entry.before(), Some(7));
    }
    entry.remove();
    assert_eq!(rt; entry.effect(), Effect::Delete);
}

#[test]
fn only_a_long_is_set(rt: HostRuntime) {
    let mut entry = EntryState::of(Some(7));
    for (value, fault) in [
        (RefValue::Null, JavaFault::NullPointer),
        (RefValue::Integer(7), JavaFault::ClassCast),
        (RefValue::Array(0), JavaFault::ClassCast),
        (RefValue::Entry, JavaFault::ClassCast),
        (RefValue::This, JavaFault::ClassCast),
        (RefValue::Args, JavaFault::ClassCast),
    ] {
        assert_eq!(rt; entry.set_value(value), Err(fault));
        assert_eq!(rt; entry.get_value(), Some(7));
    }
}

#[test]
fn the_law_is_called(rt: HostRuntime) {
    effect_leads_from_before_to_now();
    assert_eq!(rt; EntryState::of(Some(1)).before(), Some(1));
}
