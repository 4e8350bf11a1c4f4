use super::block_tests::{A, B, Call, Y, make_both_one, pair, told};
use gate_values::Change;
use gate_values::Logic::{One, Zero};
use std::alloc::Global;
use std::test::Fail;
use warp_block::{Block, Message, Part};
use warp_stores::{Steps, Word};

/// The nets of the pair.
const NETS: usize = 6;

/// A list for each net of the pair: one with this change, and empty ones.
fn lists_with(alloc: Global, net: u32, change: Change) -> Result<Vec<Vec<Change>>, Fail> {
    let mut lists = Vec::new(alloc);
    for other in 0..NETS {
        let mut list = Vec::new(alloc);
        if other == net as usize {
            list.push(change)?;
        }
        lists.push(list)?;
    }
    Ok(lists)
}

fn list_of(lists: &[Vec<Change>], net: u32) -> &[Change] {
    match lists.get(net as usize) {
        Some(list) => list.as_slice(),
        None => &[],
    }
}

/// Gives the logs of a block away.
fn give(block: Block, lists: &mut Vec<Vec<Change>>) -> Result<(), Fail> {
    let count = lists.len();
    if block
        .part()
        .nets()
        .iter()
        .all(|net| (*net as usize) < count)
    {
        block.give_logs(lists);
        return Ok(());
    }
    drop(block);
    Err(Fail::from("a net without a list"))
}

/// Makes the first calls of block 1, and gives its logs away.
fn give_after_both(
    mut block: Block,
    lists: &mut Vec<Vec<Change>>,
    out: &mut Vec<Message>,
) -> Result<(), Fail> {
    match make_both_one(&[], &mut block, out) {
        Ok(()) => give(block, lists),
        Err(fail) => {
            drop(block);
            Err(fail)
        }
    }
}

/// Gives the logs of a block away, and its history, if it has one to give.
fn give_history(
    block: Block,
    lists: &mut Vec<Vec<Change>>,
) -> Result<Option<(Part, Steps<Word>)>, Fail> {
    let count = lists.len();
    if block
        .part()
        .nets()
        .iter()
        .all(|net| (*net as usize) < count)
    {
        return Ok(block.give_history(lists));
    }
    drop(block);
    Err(Fail::from("a net without a list"))
}

/// Makes the first calls of block 1, and some more, and gives its logs away, and its history.
fn history_after(
    more: &[Call],
    mut block: Block,
    lists: &mut Vec<Vec<Change>>,
    out: &mut Vec<Message>,
) -> Result<Option<(Part, Steps<Word>)>, Fail> {
    match make_both_one(more, &mut block, out) {
        Ok(()) => give_history(block, lists),
        Err(fail) => {
            drop(block);
            Err(fail)
        }
    }
}

fn change(time: u64) -> Change {
    Change { time, value: One }
}

#[test]
fn own_nets_get_their_logs_and_read_nets_keep_their_lists(rt: HostRuntime) -> Result<(), Fail> {
    let mut out = Vec::new(rt.alloc());
    let mut lists = lists_with(rt.alloc(), A, change(1))?;
    let block = pair(rt.alloc(), &mut out)?;
    give_after_both(block, &mut lists, &mut out)?;
    assert_eq!(rt; lists.len(), NETS);
    assert_eq!(rt; list_of(&lists, Y), [change(3)].as_slice());
    assert_eq!(rt; list_of(&lists, A), [change(1)].as_slice());
    assert_eq!(rt; list_of(&lists, B), [].as_slice());
    Ok(())
}

#[test]
fn a_block_that_is_done_gives_its_history(rt: HostRuntime) -> Result<(), Fail> {
    let mut out = Vec::new(rt.alloc());
    let mut lists = lists_with(rt.alloc(), A, change(1))?;
    let block = pair(rt.alloc(), &mut out)?;
    let (part, history) = history_after(&[], block, &mut lists, &mut out)?.ok_or("a history")?;
    assert_eq!(rt; part.owns(Y), true);
    assert_eq!(rt; (history.last_time(), history.last_step().len()), (3, 1));
    assert_eq!(rt; list_of(&lists, Y), [change(3)].as_slice());
    Ok(())
}

#[test]
fn a_block_with_something_left_to_do_gives_none(rt: HostRuntime) -> Result<(), Fail> {
    let mut out = Vec::new(rt.alloc());
    let mut lists = lists_with(rt.alloc(), A, change(1))?;
    let block = pair(rt.alloc(), &mut out)?;
    let straggler = [Call::Receive(told(B, 1, Zero))];
    let history = history_after(straggler.as_slice(), block, &mut lists, &mut out)?;
    assert_eq!(rt; history.is_none(), true);
    assert_eq!(rt; list_of(&lists, Y), [].as_slice());
    Ok(())
}
