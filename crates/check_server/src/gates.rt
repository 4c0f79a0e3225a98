//! A gate at which sessions wait for one another.
//!
//! A rule is `SESSION.TURN.OTHER.UNTIL`: the session waits before its turn until the other one has come to its turn UNTIL. Rules are
//! separated by commas.
use etp_outside::Gate;
use etp_values::NoMemory;
use std::alloc::Global;
use std::sync::atomic::{AtomicU64, Ordering};
use std::thread;

/// How often a waiting session looks again before it gives up.
const LOOKS: u64 = 10_000_000;

#[derive(Drop)]
struct Rule {
    session: u64,
    turn: u64,
    other: u64,
    until: u64,
    came: AtomicU64,
    gave_up: AtomicU64,
}

impl Rule {
    /// Notes that a session has come to a turn.
    fn note(&self, session: u64, turn: u64) {
        if session == self.other && turn >= self.until {
            self.came.store(1, Ordering::SeqCst);
        }
    }

    /// Makes a session wait before a turn.
    fn hold(&self, session: u64, turn: u64) {
        if session == self.session && turn == self.turn {
            self.wait();
        }
    }

    fn wait(&self) {
        for _ in 0..LOOKS {
            if self.came.load(Ordering::SeqCst) == 1 {
                return;
            }
            thread::yield_now();
        }
        self.gave_up.store(1, Ordering::SeqCst);
    }
}

/// A gate with rules.
#[derive(Drop)]
pub(crate) struct Turns {
    rules: Vec<Rule>,
}

impl Turns {
    fn note(&self, session: u64, turn: u64) {
        for rule in self.rules.as_slice() {
            rule.note(session, turn);
        }
    }

    fn hold(&self, session: u64, turn: u64) {
        for rule in self.rules.as_slice() {
            rule.hold(session, turn);
        }
    }

    /// Whether someone waited in vain.
    pub(crate) fn was_missed(&self) -> bool {
        for rule in self.rules.as_slice() {
            if rule.gave_up.load(Ordering::SeqCst) == 1 {
                return true;
            }
        }
        false
    }
}

impl Gate for Turns {
    fn before(&self, session: u64, turn: u64) {
        self.note(session, turn);
        self.hold(session, turn);
    }
}

/// The rule of a word, if it is one.
fn rule_of(alloc: Global, word: &str) -> Result<Option<Rule>, NoMemory> {
    let mut numbers = Vec::new(alloc);
    for part in word.split('.') {
        numbers.push(part.parse::<u64>().unwrap_or(0))?;
    }
    let [session, turn, other, until] = numbers.as_slice() else {
        return Ok(None);
    };
    Ok(Some(Rule {
        session: *session,
        turn: *turn,
        other: *other,
        until: *until,
        came: AtomicU64::new(0),
        gave_up: AtomicU64::new(0),
    }))
}

/// A gate with the rules of a word.
pub(crate) fn gate_of(alloc: Global, words: &str) -> Result<Turns, NoMemory> {
    let mut rules = Vec::new(alloc);
    for word in words.split(',') {
        if let Some(rule) = rule_of(alloc, word)? {
            rules.push(rule)?;
        }
    }
    Ok(Turns { rules })
}
