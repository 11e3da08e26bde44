// The library for C (include/wenduulig.h): each export is the function of that name of crate capi, with its clauses.
// That they stand here again is the C interface: a static library exports what its own crate declares, and a contract is read where it is declared.
#![tactic(auto)]

ghost use Rattle.std.specs.Prelude.{◌≡◌, length};
ghost use Rattle.literal.specs.declared.Writing.TheVariants.{Rust, GeoPackage};
ghost use Rattle.tree.specs.Written.{leaves, said};
ghost use Rattle.text.specs.Lowered.{lowering, lowering_within};
ghost use Rattle.reduce.specs.Reducing.{reducing};
ghost use Rattle.controller.specs.Controller.{controller};
ghost use Rattle.truth.specs.Reading as reading;
ghost use Rattle.capi.specs.Numbers.{lowering_number, reading_number};

#[unsafe(no_mangle)]
pub extern "C" fn wenduulig_to_sql(settings: &[u8], tree: &[u8], out: &mut [u8]) -> i64
    ensures says { result ≡ lowering_number (said (lowering Rust settings.now tree.now (length out.old))) }
    ensures bytes { out.new ≡ leaves out.old (lowering Rust settings.now tree.now (length out.old)) }
{
    capi::wenduulig_to_sql(settings, tree, out)
}

#[unsafe(no_mangle)]
pub extern "C" fn wenduulig_to_geopackage_sql(settings: &[u8], tree: &[u8], out: &mut [u8]) -> i64
    ensures says { result ≡ lowering_number (said (lowering GeoPackage settings.now tree.now (length out.old))) }
    ensures bytes { out.new ≡ leaves out.old (lowering GeoPackage settings.now tree.now (length out.old)) }
{
    capi::wenduulig_to_geopackage_sql(settings, tree, out)
}

#[unsafe(no_mangle)]
pub extern "C" fn wenduulig_preview_sql(settings: &[u8], tree: &[u8], size: usize) -> i64
    ensures { result ≡ lowering_number (said (lowering Rust settings.now tree.now size)) }
{
    capi::wenduulig_preview_sql(settings, tree, size)
}

#[unsafe(no_mangle)]
pub extern "C" fn wenduulig_preview_geopackage_sql(settings: &[u8], tree: &[u8], size: usize) -> i64
    ensures { result ≡ lowering_number (said (lowering GeoPackage settings.now tree.now size)) }
{
    capi::wenduulig_preview_geopackage_sql(settings, tree, size)
}

#[unsafe(no_mangle)]
pub extern "C" fn wenduulig_controller_to_sql(settings: &[u8], tree: &[u8], out: &mut [u8]) -> i64
    ensures says { result ≡ lowering_number (said (lowering_within controller Rust settings.now tree.now (length out.old))) }
    ensures bytes { out.new ≡ leaves out.old (lowering_within controller Rust settings.now tree.now (length out.old)) }
{
    capi::wenduulig_controller_to_sql(settings, tree, out)
}

#[unsafe(no_mangle)]
pub extern "C" fn wenduulig_controller_to_geopackage_sql(
    settings: &[u8],
    tree: &[u8],
    out: &mut [u8],
) -> i64
    ensures says { result ≡ lowering_number (said (lowering_within controller GeoPackage settings.now tree.now (length out.old))) }
    ensures bytes { out.new ≡ leaves out.old (lowering_within controller GeoPackage settings.now tree.now (length out.old)) }
{
    capi::wenduulig_controller_to_geopackage_sql(settings, tree, out)
}

#[unsafe(no_mangle)]
pub extern "C" fn wenduulig_controller_preview_sql(settings: &[u8], tree: &[u8], size: usize) -> i64
    ensures { result ≡ lowering_number (said (lowering_within controller Rust settings.now tree.now size)) }
{
    capi::wenduulig_controller_preview_sql(settings, tree, size)
}

#[unsafe(no_mangle)]
pub extern "C" fn wenduulig_controller_preview_geopackage_sql(
    settings: &[u8],
    tree: &[u8],
    size: usize,
) -> i64
    ensures { result ≡ lowering_number (said (lowering_within controller GeoPackage settings.now tree.now size)) }
{
    capi::wenduulig_controller_preview_geopackage_sql(settings, tree, size)
}

#[unsafe(no_mangle)]
pub extern "C" fn wenduulig_reduce(tree: &[u8], out: &mut [u8]) -> i64
    ensures says { result ≡ lowering_number (said (reducing tree.now (length out.old))) }
    ensures bytes { out.new ≡ leaves out.old (reducing tree.now (length out.old)) }
{
    capi::wenduulig_reduce(tree, out)
}

#[unsafe(no_mangle)]
pub extern "C" fn wenduulig_read<'a>(text: &'a [u8], row: &'a [u8]) -> i32
    ensures { result ≡ reading_number (reading.said (reading.decided text.now row.now)) }
{
    capi::wenduulig_read(text, row)
}
