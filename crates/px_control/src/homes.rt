//! Where cells are at home.
ghost use Rattle.std.specs.Prelude.{◌≡◌, ℕ};
ghost use Rattle.px_blocks.specs.declared.side.Side.{Side};
ghost use Rattle.px_blocks.specs.Plan.{Part, part_of};

use px_blocks::Side;
use px_value::Header;

/// Knows where the cells of objects are at home, by the sites that made them.
pub trait Homes {
    /// The side of a part of the objects of a site.
    ghost home: { Self → ℕ → Part → Side };

    /// The side of a cell of an object with this header.
    fn home(&self, header: Header, index: u32) -> Side
        ensures { result ≡ home self.now header.site (part_of header.kind index) };
}
