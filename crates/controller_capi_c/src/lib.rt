// The controller's library for C, without the planner's and the reader: each export is the function of that name of crate controller_capi, with its clauses.
// That they stand here again is the C interface: a static library exports what its own crate declares, and a contract is read where it is declared.
#![tactic(auto)]

ghost use Rattle.std.specs.Prelude.{◌≡◌, length};
ghost use Rattle.literal.specs.declared.Writing.TheVariants.{Rust, GeoPackage};
ghost use Rattle.tree.specs.Written.{leaves, said};
ghost use Rattle.text.specs.Lowered.{lowering_within};
ghost use Rattle.controller.specs.Controller.{controller};
ghost use Rattle.capi.specs.Numbers.{lowering_number};

#[unsafe(no_mangle)]
pub extern "C" fn wenduulig_controller_to_sql(settings: &[u8], tree: &[u8], out: &mut [u8]) -> i64
    ensures says { result ≡ lowering_number (said (lowering_within controller Rust settings.now tree.now (length out.old))) }
    ensures bytes { out.new ≡ leaves out.old (lowering_within controller Rust settings.now tree.now (length out.old)) }
{
    controller_capi::wenduulig_controller_to_sql(settings, tree, out)
}

#[unsafe(no_mangle)]
pub extern "C" fn wenduulig_controller_to_geopackage_sql(
    settings: &[u8],
    tree: &[u8],
    out: &mut [u8],
) -> i64
    ensures says { result ≡ lowering_number (said (lowering_within controller GeoPackage settings.now tree.now (length out.old))) }
    ensures bytes { out.new ≡ leaves out.old (lowering_within controller GeoPackage settings.now tree.now (length out.old)) }
{
    controller_capi::wenduulig_controller_to_geopackage_sql(settings, tree, out)
}

#[unsafe(no_mangle)]
pub extern "C" fn wenduulig_controller_preview_sql(settings: &[u8], tree: &[u8], size: usize) -> i64
    ensures { result ≡ lowering_number (said (lowering_within controller Rust settings.now tree.now size)) }
{
    controller_capi::wenduulig_controller_preview_sql(settings, tree, size)
}

#[unsafe(no_mangle)]
pub extern "C" fn wenduulig_controller_preview_geopackage_sql(
    settings: &[u8],
    tree: &[u8],
    size: usize,
) -> i64
    ensures { result ≡ lowering_number (said (lowering_within controller GeoPackage settings.now tree.now size)) }
{
    controller_capi::wenduulig_controller_preview_geopackage_sql(settings, tree, size)
}
