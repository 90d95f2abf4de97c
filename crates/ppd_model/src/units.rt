ghost use Rattle.std.specs.Option.{option_map_or};
ghost use Rattle.std.specs.Prelude.{◌≡◌, slice_get, []};
ghost use Rattle.ppd_model.specs.Story.{unit_started as unit_started_of};

use ppd_ast::Plan;
use ppd_sem::Need;

/// The shared cells of a unit, and none past the plan's units.
pub fn unit_cells(plan: &Plan, unit: u16) -> &[u16]
    ensures { result.now ≡ option_map_or (λ u. u.cells) (slice_get plan.now.units unit) [] }
{
    match plan.units.get(unit as usize) {
        Some(unit) => unit.cells.as_slice(),
        None => &[],
    }
}

/// The unit that starts after a step of this need, if one does.
pub fn unit_started(need: Need) -> Option<u16>
    ensures { result ≡ unit_started_of need }
{
    match need {
        Need::Enter { unit, .. }
        | Need::Leave { unit, .. }
        | Need::Invoke { unit, .. }
        | Need::P { unit, .. }
        | Need::V { unit, .. }
        | Need::Send { unit, .. }
        | Need::Done { unit, .. }
        | Need::Recv { unit, .. } => Some(unit),
        Need::Back { unit, .. } => unit,
        _ => None,
    }
}
