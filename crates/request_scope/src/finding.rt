//! Operations by what was seen of the keys that they need.
ghost use Rattle.std.specs.Prelude.{◌≡◌, IfOk, OnOk};
ghost use Rattle.request_scope.specs.Finding.{found_refusal, is_first_seen, putting, refused_look};

use crate::within::Scope;
use etp_values::{ErrorCode, NoMemory};
use tx_stage::{Key, Looked, Op};

/// The first refusal among what was seen.
pub fn refused_look(found: &[Looked]) -> Option<ErrorCode>
    ensures { result ≡ refused_look found.now }
{
    let [first, rest @ ..] = found else {
        return None;
    };
    match first {
        Looked::Refused(code) => Some(*code),
        Looked::Missing
        | Looked::Space(_)
        | Looked::Known { .. }
        | Looked::Object(_)
        | Looked::Array(_)
        | Looked::Slice(_)
        | Looked::Shape { .. } => refused_look(rest),
    }
}

/// Whether something exists at the first key that was looked at.
fn is_first_seen(found: &[Looked]) -> bool
    ensures { result ≡ is_first_seen found.now }
{
    let [first, ..] = found else {
        return false;
    };
    match first {
        Looked::Missing => false,
        Looked::Space(_)
        | Looked::Known { .. }
        | Looked::Object(_)
        | Looked::Array(_)
        | Looked::Slice(_)
        | Looked::Shape { .. }
        | Looked::Refused(_) => true,
    }
}

impl Scope {
    /// Stages an operation by what was seen of the keys that it touches, of which the first, `needed`, has to exist. Returns why it is
    /// refused: a look was, nothing exists there, or the transaction refuses it.
    pub fn put_found(
        &mut self,
        op: Op,
        needed: &Key,
        found: &[Looked],
    ) -> Result<Option<ErrorCode>, NoMemory>
        ensures refusal { IfOk result (λ code. code ≡ found_refusal self.old.stage needed.now op found.now) }
        ensures state { OnOk result (self.new ≡ putting self.old needed.now op found.now) }
    {
        if let Some(code) = refused_look(found) {
            drop(op);
            return Ok(Some(code));
        }
        if !self.stands(needed, is_first_seen(found)) {
            drop(op);
            return Ok(Some(ErrorCode::NotFound));
        }
        self.put(op)
    }
}
