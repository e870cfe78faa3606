use crate::expect::{holds, same};
use marks::Marks;
use std::alloc::AllocError;

fn mark(marks: &mut Marks, number: u32) {
    if number < marks.count() {
        marks.mark(number);
    }
}

fn unmark(marks: &mut Marks, number: u32) {
    if number < marks.count() {
        marks.unmark(number);
    }
}

fn has(marks: &Marks, number: u32) -> bool {
    number < marks.count() && marks.is_marked(number)
}

#[test]
fn finds_the_least_of_what_is_marked(rt: HostRuntime) -> Result<(), AllocError> {
    let mut marks = Marks::new(rt.alloc(), 600_000)?;
    same(&rt, "numbers", marks.count(), 600_000);
    same(&rt, "none", marks.least(), None);
    for number in [599_999, 262_144, 262_143, 4_096, 4_095, 64, 63, 0] {
        holds(&rt, number, !has(&marks, number));
        mark(&mut marks, number);
        holds(&rt, number, has(&marks, number));
        same(&rt, number, marks.least(), Some(number));
    }
    mark(&mut marks, 4_096);
    for number in [0, 63, 64, 4_095, 4_096, 262_143, 262_144, 599_999] {
        same(&rt, number, marks.least(), Some(number));
        unmark(&mut marks, number);
        unmark(&mut marks, number);
        holds(&rt, number, !has(&marks, number));
    }
    same(&rt, "none", marks.least(), None);
    Ok(())
}

#[test]
fn keeps_the_words_of_other_marks(rt: HostRuntime) -> Result<(), AllocError> {
    let mut marks = Marks::new(rt.alloc(), 130)?;
    for number in [129, 66, 65] {
        mark(&mut marks, number);
    }
    unmark(&mut marks, 65);
    same(&rt, "two", marks.least(), Some(66));
    unmark(&mut marks, 66);
    same(&rt, "one", marks.least(), Some(129));
    Ok(())
}

#[test]
fn of_few_numbers(rt: HostRuntime) -> Result<(), AllocError> {
    same(&rt, "of none", Marks::new(rt.alloc(), 0)?.least(), None);
    let mut one = Marks::new(rt.alloc(), 1)?;
    mark(&mut one, 0);
    same(&rt, "one", one.least(), Some(0));
    same(
        &rt,
        "from 0 and 1",
        (one.next(0), one.next(1)),
        (Some(0), None),
    );
    Ok(())
}

#[test]
fn finds_the_next_of_what_is_marked(rt: HostRuntime) -> Result<(), AllocError> {
    let mut marks = Marks::new(rt.alloc(), 600_000)?;
    same(&rt, "none", marks.next(0), None);
    let numbers = [1, 63, 64, 130, 4_095, 4_096, 262_143, 262_144, 599_999];
    for number in numbers {
        mark(&mut marks, number);
    }
    let mut from = 0;
    for number in numbers {
        same(&rt, from, marks.next(from), Some(number));
        same(&rt, number, marks.next(number), Some(number));
        from = number.saturating_add(1);
    }
    same(&rt, "from the end", marks.next(600_000), None);
    same(&rt, "from the greatest", marks.next(u32::MAX), None);
    Ok(())
}
