//! The parts of a list of rows, in place.
ghost use Rattle.std.specs.Prelude.{◌≡◌, ◌≤◌, ◌+◌, length, take, drop};

use sql_types::{Items, Values};

/// Keeps the first so many rows.
pub(crate) fn keep_first(list: &mut Items<Values>, count: usize)
    ensures { list.new ≡ take count list.old }
{
    while list.len() > count {
        list.pop();
    }
}

/// Leaves out the first so many rows.
pub(crate) fn leave_out_first(list: &mut Items<Values>, count: usize)
    requires { count ≤ length list.old }
    ensures { list.new ≡ drop count list.old }
{
    let kept = list.len() - count;
    if kept <= count {
        move_to_front(list, count, kept);
        keep_first(list, kept);
    } else {
        remove_first(list, count);
    }
}

/// Moves the last rows, so many as are kept, to the front, where at least as many are left out.
fn move_to_front(list: &mut Items<Values>, left_out: usize, kept: usize)
    requires fewer { kept ≤ left_out }
    requires all { length list.old ≡ left_out + kept }
    ensures { take kept list.new ≡ drop left_out list.old }
{
    let mut waiting = kept;
    while waiting > 0 {
        waiting -= 1;
        if let Some(row) = list.pop() {
            list.set(waiting, row);
        }
    }
}

fn remove_first(list: &mut Items<Values>, count: usize)
    requires { count ≤ length list.old }
    ensures { list.new ≡ drop count list.old }
{
    for removed in 0..count {
        list.remove(0);
    }
}
