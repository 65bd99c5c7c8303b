//! What is known of code before it is cut.
ghost use Rattle.std.specs.Prelude.{IfOk};
ghost use Rattle.px_code.specs.WellFormed.{IsWellFormed};
ghost use Rattle.px_compile.specs.Facts.{AreFacts};

use crate::kept::Kept;
use px_code::{Code, Side};
use px_points::{Points, points_to};
use std::alloc::{AllocError, Global};

/// Where references lead, and which fields each side keeps.
#[derive(Drop)]
pub struct Facts {
    pub points: Points,
    pub kept: Kept,
}

impl Facts {
    pub fn new(alloc: Global, code: &Code, sides: &[Side]) -> Result<Facts, AllocError>
        requires { IsWellFormed code.now }
        ensures { IfOk result (λ facts. AreFacts code.now sides.now facts) }
    {
        let points = points_to(alloc, code)?;
        let kept = Kept::new(alloc, code, sides, &points)?;
        Ok(Facts { points, kept })
    }
}
