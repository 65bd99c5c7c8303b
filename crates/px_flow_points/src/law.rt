//! Laws of points-to.
ghost use Rattle.px_flow_points.specs.TypedPoints.{TypedNumbersExist};

/// The numbers of typed code exist.
pub fn typed_numbers_exist()
    ensures { TypedNumbersExist }
{}
