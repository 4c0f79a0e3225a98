//! What the views of a board show. The lines are written by hand.
ghost use Rattle.std.specs.Prelude.{[]};
ghost use Rattle.watch_views.specs.Held.{of_points};

use channel_points::{BoxedPoints, Points};
use channel_store::{ChangeMsg, What};
use etp_values::{DataValue, NoMemory, Point};
use std::alloc::Global;
use std::process::Abort;
use std::sync::Arc;
use std::sync::atomic::{AtomicU64, Ordering};
use std::test::Fail;
use watch_views::*;

/// Points whose values are their indexes tenfold.
fn points(alloc: Global, indexes: &[i64]) -> Result<Points, NoMemory> {
    let mut points = Points::none();
    for index in indexes {
        points.push(
            alloc,
            Point {
                index: *index,
                value: DataValue::Long(index.saturating_mul(10)),
            },
        )?;
    }
    Ok(points)
}

fn append(alloc: Global, channel: i64, indexes: &[i64]) -> Result<ChangeMsg, NoMemory> {
    Ok(ChangeMsg {
        channel,
        what: What::Append(points(alloc, indexes)?),
    })
}

fn replace(alloc: Global, channel: i64, from: i64, to: i64) -> Result<ChangeMsg, NoMemory> {
    Ok(ChangeMsg {
        channel,
        what: What::Replace {
            from,
            to,
            points: BoxedPoints::new(alloc, points(alloc, &[from])?)?,
        },
    })
}

fn truncate(channel: i64, end: i64) -> ChangeMsg {
    ChangeMsg {
        channel,
        what: What::Truncate { end },
    }
}

/// That the board shows these lines.
fn shows(rt: &impl Abort, alloc: Global, board: &Board, lines: &[u8]) -> Result<(), Fail> {
    let mut text = b">".to_vec(alloc)?;
    board.print(alloc, &mut text)?;
    let mut expected = b">".to_vec(alloc)?;
    expected.extend_from_slice(lines)?;
    assert!(rt; text.as_slice() == expected.as_slice());
    Ok(())
}

#[test]
fn views_follow_the_changes_of_their_channel(rt: HostRuntime) -> Result<(), Fail> {
    let a = rt.alloc();
    let mut board = Board::new(a);
    board.add(7, Box::new(a, Latest::new())?)?;
    board.add(7, Box::new(a, Window::new(a, 2)?)?)?;
    board.add(7, Box::new(a, Counts::new())?)?;
    board.add(8, Box::new(a, Counts::new())?)?;
    shows(
        &rt,
        a,
        &board,
        b"latest none\nwindow 0\ncounts 0 0 0 0\ncounts 0 0 0 0\n",
    )?;
    board.feed(a, &append(a, 7, &[1, 2, 3])?)?;
    shows(
        &rt,
        a,
        &board,
        b"latest 3 30\nwindow 2\n2 20\n3 30\ncounts 1 3 0 0\ncounts 0 0 0 0\n",
    )?;
    board.feed(a, &replace(a, 7, 2, 2)?)?;
    board.feed(a, &append(a, 8, &[])?)?;
    shows(
        &rt,
        a,
        &board,
        b"latest 3 30\nwindow 1\n3 30\ncounts 1 3 1 0\ncounts 1 0 0 0\n",
    )?;
    board.feed(a, &append(a, 7, &[4])?)?;
    board.feed(a, &truncate(7, 3))?;
    shows(
        &rt,
        a,
        &board,
        b"latest none\nwindow 1\n3 30\ncounts 2 4 1 1\ncounts 1 0 0 0\n",
    )
}

#[test]
fn a_board_of_views_watches_one_channel(rt: HostRuntime) -> Result<(), Fail> {
    let a = rt.alloc();
    let mut views: Vec<Box<dyn View>> = Vec::new(a);
    views.push(Box::new(a, Latest::new())?)?;
    views.push(Box::new(a, Counts::new())?)?;
    let mut board = Board::of(a, 7, views)?;
    board.feed(a, &append(a, 7, &[1])?)?;
    shows(&rt, a, &board, b"latest 1 10\ncounts 1 1 0 0\n")?;
    board.watch(8);
    board.feed(a, &append(a, 7, &[2])?)?;
    board.feed(a, &append(a, 8, &[3])?)?;
    shows(&rt, a, &board, b"latest 3 30\ncounts 2 2 0 0\n")
}

/// A view that counts how often a value of it is dropped.
struct Dropped {
    count: Arc<AtomicU64>,
}

impl Drop for Dropped {
    fn drop(self) {
        let Dropped { count } = self;
        count.fetch_add(1, Ordering::SeqCst);
    }
}

impl View for Dropped {
    ghost held = { λ v. of_points [] };

    ghost step = { λ v h w. h };

    ghost shown = { λ v h. [] };

    fn change(&mut self, _alloc: Global, _change: &ChangeMsg) -> Result<(), NoMemory> {
        Ok(())
    }

    fn lines(&self, _alloc: Global, _into: &mut Vec<u8>) -> Result<(), NoMemory> {
        Ok(())
    }
}

#[test]
fn views_that_are_removed_are_dropped_once(rt: HostRuntime) -> Result<(), Fail> {
    let a = rt.alloc();
    let count = Arc::new(a, AtomicU64::new(0))?;
    let mut board = Board::new(a);
    board.add(
        7,
        Box::new(
            a,
            Dropped {
                count: count.clone()?,
            },
        )?,
    )?;
    board.add(8, Box::new(a, Counts::new())?)?;
    assert_eq!(rt; board.remove(7), 1);
    assert_eq!(rt; count.load(Ordering::SeqCst), 1);
    assert_eq!(rt; board.remove(7), 0);
    shows(&rt, a, &board, b"counts 0 0 0 0\n")?;
    drop(board);
    assert_eq!(rt; count.load(Ordering::SeqCst), 1);
    Ok(())
}
