// The order of the moves.

ghost use Rattle.std.specs.Prelude.{◌≡◌, ◌≢◌, ℕ, ◌+◌, ◌<◌, ◌≤◌, List, [], ◌∷◌, ◌++◌, length, All, AllPairs, IfNone, IfSome, MatchBool, slice_index_or};
ghost use Rattle.tb_moves.specs.ParallelMoves.{IsParallel, IsTaken, same_loc};
ghost use Rattle.tb_moves.specs.declared.loc.Loc.{Loc};

use crate::list::MoveList;
use crate::loc::Loc;
use crate::path::Path;
use arrayvec::ArrayVec;

// The moves that are not in order yet.
type Pending = ArrayVec<(Loc, Loc), 16>;

/// Leaves in `out` single moves that together do the parallel assignment `moves`, each a target and its source.
/// They may use the scratch, and leave it with anything.
pub fn order_moves(moves: &[(Loc, Loc)], scratch: Loc, out: &mut MoveList)
    requires few { length moves.now ≤ 16 }
    requires targets_differ { AllPairs (λ m n. m.0 ≢ n.0) moves.now }
    requires scratch_free { All (λ m. (m.0 ≢ scratch) × (m.1 ≢ scratch)) moves.now }
    ensures parallel { IsParallel ℕ moves.now scratch out.new }
    ensures few { length out.new ≤ 24 }
{
    out.clear();
    let mut pending = pending_of(moves);
    // The path holds targets, each of them the source of the one above it; the source of the lowest is the origin.
    // The top is moved once no pending move reads it, so a path that comes back to its origin needs one save.
    let mut path = Path::new();
    let mut origin = scratch;
    loop {
        let Some(top) = path.top() else {
            let Some((target, source)) = pending.pop() else {
                return;
            };
            if target == source {
                continue;
            }
            path.push(target);
            origin = source;
            continue;
        };
        if let Some(reader) = take_reader(&mut pending, top) {
            path.push(reader);
            continue;
        }
        origin = save_if_read(origin, top, scratch, out);
        let _ = path.pop();
        out.push(top, path.top().unwrap_or(origin));
    }
}

// Where a path reads its own top, saves it: the path is then to read the scratch.
fn save_if_read(origin: Loc, top: Loc, scratch: Loc, out: &mut MoveList) -> Loc
    requires { origin ≡ top → length out.old < 24 }
    ensures saved { origin ≡ top → (result ≡ scratch) × (out.new ≡ out.old ++ (scratch, top) ∷ []) }
    ensures unread { origin ≢ top → (result ≡ origin) × (out.new ≡ out.old) }
{
    if origin == top {
        out.push(scratch, top);
        scratch
    } else {
        origin
    }
}

// All of the moves.
fn pending_of(moves: &[(Loc, Loc)]) -> Pending
    requires { length moves.now ≤ 16 }
    ensures { result.items ≡ moves.now }
{
    let mut pending = Pending::new();
    for m in moves {
        pending.push(*m);
    }
    pending
}

// Takes a move from this source out, where there is one, and tells its target.
fn take_reader(pending: &mut Pending, target: Loc) -> Option<Loc>
    ensures none { IfNone result (pending.new.items ≡ pending.old.items) }
    ensures unread { IfNone result (All (λ m. m.1 ≢ target) pending.old.items) }
    ensures some { IfSome result (λ reader. IsTaken pending.old.items (reader, target) pending.new.items) }
{
    let index = reader_of(pending.as_slice(), target)?;
    let (reader, _) = pending.remove(index);
    Some(reader)
}

// The index of a move from this source.
fn reader_of(pending: &[(Loc, Loc)], target: Loc) -> Option<usize>
    ensures none { IfNone result (All (λ m. m.1 ≢ target) pending.now) }
    ensures some { IfSome result (λ i. (i < length pending.now)
        × ((d : Loc × Loc) → (slice_index_or pending.now i d).1 ≡ target)) }
{
    for (index, (_, source)) in pending.iter().enumerate() {
        if *source == target {
            return Some(index);
        }
    }
    None
}
