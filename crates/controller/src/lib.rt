// The calls of the camera's controller (document 02, slip 7): the planner's (crate gpkg) within limits of its own.
#![tactic(auto)]

ghost use Rattle.std.specs.Prelude.{◌≡◌, length};
ghost use Rattle.tree.specs.Written.{leaves, said};
ghost use Rattle.text.specs.Lowered.{answer, heard, lowering_within};
ghost use Rattle.literal.specs.declared.Writing.TheVariants.{Rust, GeoPackage};
ghost use Rattle.controller.specs.Controller.{controller};

use literal::Writing;
use refusal::Refusal;
use tree::Limits;

// Its limits: document 02, slip 7.
const CONTROLLER: Limits = Limits {
    tree: 2000,
    depth: 8,
    text: 4000,
};

// Lowers a tree as `gpkg::to_sql` does; refusals 2, 4 and 8 mean the controller's limits.
pub fn to_sql(settings: &[u8], tree: &[u8], out: &mut [u8]) -> Result<usize, Refusal>
    ensures says { result ≡ answer (lowering_within controller Rust settings.now tree.now (length out.old)) }
    ensures bytes { out.new ≡ leaves out.old (lowering_within controller Rust settings.now tree.now (length out.old)) }
    ensures hears { heard result ≡ said (lowering_within controller Rust settings.now tree.now (length out.old)) }
{
    text::lower(CONTROLLER, Writing::Rust, settings, tree, out)
}

// Lowers a tree as `gpkg::to_geopackage_sql` does; 2, 4 and 8 as above.
pub fn to_geopackage_sql(settings: &[u8], tree: &[u8], out: &mut [u8]) -> Result<usize, Refusal>
    ensures says { result ≡ answer (lowering_within controller GeoPackage settings.now tree.now (length out.old)) }
    ensures bytes { out.new ≡ leaves out.old (lowering_within controller GeoPackage settings.now tree.now (length out.old)) }
    ensures hears { heard result ≡ said (lowering_within controller GeoPackage settings.now tree.now (length out.old)) }
{
    text::lower(CONTROLLER, Writing::GeoPackage, settings, tree, out)
}

// What the controller's call of this writing answers with a buffer of this size; nothing is written.
pub fn preview(
    writing: Writing,
    settings: &[u8],
    tree: &[u8],
    size: usize,
) -> Result<usize, Refusal>
    ensures says { result ≡ answer (lowering_within controller writing settings.now tree.now size) }
    ensures hears { heard result ≡ said (lowering_within controller writing settings.now tree.now size) }
{
    text::preview(CONTROLLER, writing, settings, tree, size)
}
