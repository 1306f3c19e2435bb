ghost use Rattle.std.specs.Prelude.{◌≡◌, ◌<◌, ◌==◌, None, false, length, slice_get};
ghost use Rattle.rail_state.specs.Sight.{IsGuarded};
ghost use Rattle.plain_board.specs.Answer.{answer};
ghost use Rattle.plain_board.specs.History.{is_fault};
ghost use Rattle.plain_board.specs.declared.plain.Plain.{Plain};
ghost use Rattle.board.specs.Valid.{IsValid};
ghost use Rattle.rail_ops.specs.Sight.{IsReady, MayBe, ShowsSame, placed, shown_by};
ghost use Rattle.rail_ops.specs.Inside.Seen.{told_at};

use board::{Board, Handle, Part, Rail, RailId};
use rail_state::Rails;
use rows::{Answer, Call};
use use_counts::Mine;

/// The rail of this number.
pub(crate) fn rail_at(board: &Board, r: RailId) -> &Rail
    requires { r.0 < length board.now.rails }
    ensures { slice_get board.now.rails r.0 ≡ Some result.now }
{
    &board.rails.as_slice()[usize::from(r.0)]
}

/// Where a rail stands, in µV, by what is seen in its selector field.
pub(crate) fn seen_uv<R: Rails>(board: &Board, rails: &mut R, r: RailId) -> u32
    requires fits { R.fits rails.old }
    requires board { R.board rails.old ≡ board.now }
    requires there { r.0 < length board.now.rails }
    requires guarded { IsGuarded board.now (R.rails rails.old) r.0 }
    ensures value { result ≡ told_at board.now r.0 (R.bits rails.old r.0 Part.Selector) }
    ensures fits { R.fits rails.new }
    ensures same { ShowsSame (shown_by R.board R.rails R.bits R.states rails.old) (shown_by R.board R.rails R.bits R.states rails.new) }
    ensures base { R.base rails.new ≡ R.base rails.old }
{
    let rail = rail_at(board, r);
    match rail.desc.selector {
        None => rail.kept_uv,
        Some(_) => {
            let selector = u16::from(rails.see(r, Part::Selector));
            rail.desc.table.value(selector).unwrap_or(rail.kept_uv)
        }
    }
}

/// Whether a rail is on, by what is seen in its enable field.
pub(crate) fn seen_on<R: Rails>(board: &Board, rails: &mut R, r: RailId) -> bool
    requires fits { R.fits rails.old }
    requires board { R.board rails.old ≡ board.now }
    requires there { r.0 < length board.now.rails }
    requires guarded { IsGuarded board.now (R.rails rails.old) r.0 }
    ensures value { result ≡ (R.bits rails.old r.0 Part.Enable == 1) }
    ensures fits { R.fits rails.new }
    ensures same { ShowsSame (shown_by R.board R.rails R.bits R.states rails.old) (shown_by R.board R.rails R.bits R.states rails.new) }
    ensures base { R.base rails.new ≡ R.base rails.old }
{
    rails.see(r, Part::Enable) == 1
}

/// What a `get` of a worker's handle is answered.
pub(crate) fn get<R: Rails>(
    board: &Board,
    rails: &mut R,
    mine: &Mine,
    worker: u16,
    handle: &Handle,
) -> Answer
    requires valid { IsValid board.now }
    requires fits { R.fits rails.old }
    requires board { R.board rails.old ≡ board.now }
    requires ready { IsReady (placed (shown_by R.board R.rails R.bits R.states rails.old) mine.now worker) (Call.Get handle.now) }
    ensures answered { (plain : Plain) → MayBe (placed (shown_by R.board R.rails R.bits R.states rails.old) mine.now worker) plain → answer board.now plain worker (Call.Get handle.now) None ≡ (result, plain) }
    ensures calm { is_fault result ≡ false }
    ensures fits { R.fits rails.new }
    ensures same { ShowsSame (shown_by R.board R.rails R.bits R.states rails.old) (shown_by R.board R.rails R.bits R.states rails.new) }
    ensures base { R.base rails.new ≡ R.base rails.old }
{
    let Some(r) = mine.rail_of(handle) else {
        return Answer::NoHandle;
    };
    Answer::OkUv {
        uv: seen_uv(board, rails, r),
    }
}

/// What an `ison` of a worker's handle is answered.
pub(crate) fn is_on<R: Rails>(
    board: &Board,
    rails: &mut R,
    mine: &Mine,
    worker: u16,
    handle: &Handle,
) -> Answer
    requires valid { IsValid board.now }
    requires fits { R.fits rails.old }
    requires board { R.board rails.old ≡ board.now }
    requires ready { IsReady (placed (shown_by R.board R.rails R.bits R.states rails.old) mine.now worker) (Call.IsOn handle.now) }
    ensures answered { (plain : Plain) → MayBe (placed (shown_by R.board R.rails R.bits R.states rails.old) mine.now worker) plain → answer board.now plain worker (Call.IsOn handle.now) None ≡ (result, plain) }
    ensures calm { is_fault result ≡ false }
    ensures fits { R.fits rails.new }
    ensures same { ShowsSame (shown_by R.board R.rails R.bits R.states rails.old) (shown_by R.board R.rails R.bits R.states rails.new) }
    ensures base { R.base rails.new ≡ R.base rails.old }
{
    let Some(r) = mine.rail_of(handle) else {
        return Answer::NoHandle;
    };
    Answer::OkOn {
        on: seen_on(board, rails, r),
    }
}
