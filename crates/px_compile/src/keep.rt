//! The parts that a side keeps, as a plan lists them.
ghost use Rattle.std.specs.Prelude.{◌≡◌, IfOk};
ghost use Rattle.px_compile.specs.Keep.{parts_from, keep_of};

use crate::kept::Kept;
use px_code::{Keep, Part, SitePart};
use px_points::Marks;
use sqlite_items::Items;
use std::alloc::{AllocError, Global};

// The marked fields of the object of Main, which site 0 makes.
fn parts(alloc: Global, marks: &Marks) -> Result<Items<SitePart>, AllocError>
    ensures { IfOk result (λ parts. parts ≡ parts_from 0 marks.now) }
{
    let mut parts = Items::new(alloc);
    let mut field: u16 = 0;
    for marked in marks.as_slice() {
        if field == u16::MAX {
            return Err(AllocError);
        }
        if *marked {
            parts.push(SitePart {
                site: 0,
                part: Part::Field(field),
            })?;
        }
        field += 1;
    }
    Ok(parts)
}

pub fn keep(alloc: Global, kept: &Kept) -> Result<Keep, AllocError>
    ensures { IfOk result (λ keep. keep ≡ keep_of kept.now) }
{
    Ok(Keep {
        app: parts(alloc, &kept.app)?,
        db: parts(alloc, &kept.db)?,
    })
}
