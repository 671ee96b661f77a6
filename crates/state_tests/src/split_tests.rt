//! Records of each kind, in two slices that are merged.
use split_records::{AddRec, MaxRec, OPutRec, Splittable, merged_slices, value_of_any_history};
use top_records::TopRec;

/// One operation in each of two slices, which are merged. The laws can be had of the record.
fn in_two_slices<R: Splittable>(first: R::Op, second: R::Op) -> R
    requires first { R.can_apply R.empty first }
    requires second { R.can_apply R.empty second }
    requires both { R.can_merge (R.applied R.empty first) (R.applied R.empty second) }
    requires lawful { R.ties_are_equal }
{
    let mut left = R::identity();
    let mut right = R::identity();
    left.apply(first);
    right.apply(second);
    left.merge(right);
    value_of_any_history::<R>();
    merged_slices::<R>();
    left
}

// A slice of these entries.
fn top_of(entries: &[u64]) -> TopRec<u64, 10> {
    let mut slice = TopRec::<u64, 10>::identity();
    for entry in entries {
        slice.insert(*entry);
    }
    slice
}

// A slice of each of two lists of entries, merged.
fn top_of_both(first: &[u64], second: &[u64]) -> TopRec<u64, 10> {
    let mut merged = top_of(first);
    merged.merge(top_of(second));
    merged
}

#[test]
fn slices_are_merged(rt: HostRuntime) {
    let greatest: MaxRec = in_two_slices(50, 10);
    let put: OPutRec<(u64, u32)> = in_two_slices((50, 1), (50, 2));
    let sum: AddRec<i64> = in_two_slices(-5, 7);
    let top: TopRec<u64, 3> = in_two_slices(4, 7);
    assert_eq!(rt; greatest.value(), Some(50));
    assert_eq!(rt; put.value(), Some((50, 2)));
    assert_eq!(rt; sum.value(), 2);
    assert_eq!(rt; top.entries(), [7, 4].as_slice());
}

#[test]
fn top_list_of_two_slices(rt: HostRuntime) {
    let top = top_of_both(&[1, 3, 5, 7, 9], &[2, 4, 6, 8, 10, 11]);
    let wanted = [11, 10, 9, 8, 7, 6, 5, 4, 3, 2];
    assert_eq!(rt; top.entries(), wanted.as_slice());
}

#[test]
fn least_of_a_full_list(rt: HostRuntime) {
    let mut top = TopRec::<u64, 3>::identity();
    top.insert(5);
    top.insert(9);
    assert_eq!(rt; top.least(), None);
    top.insert(7);
    assert_eq!(rt; top.least(), Some(5));
    top.insert(4);
    assert_eq!(rt; top.least(), Some(5));
    top.insert(6);
    assert_eq!(rt; top.least(), Some(6));
}
