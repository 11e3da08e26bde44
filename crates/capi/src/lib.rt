// Lowering, reducing and reading for callers in C: each answer as one number, never the same for two answers.
// A function for each call is the C interface, which has no generic functions: each is one line over the call itself.
#![tactic(auto)]

ghost use Rattle.std.specs.Prelude.{◌≡◌, ◌<◌, ◌≤◌, length};
ghost use Rattle.refusal.specs.Number.{number_of};
ghost use Rattle.literal.specs.declared.Writing.TheVariants.{Rust, GeoPackage};
ghost use Rattle.tree.specs.Written.{leaves, said};
ghost use Rattle.text.specs.Lowered.{heard, lowering, lowering_within};
ghost use Rattle.reduce.specs.Reducing.{reducing};
ghost use Rattle.tree.specs.Limits.{length_limit};
ghost use Rattle.controller.specs.Controller.{controller};
ghost use Rattle.truth.specs.Reading as reading;
ghost use Rattle.capi.specs.LengthWords.{length_of};
ghost use Rattle.capi.specs.Numbers.{minus, lowering_number, reading_number};

use literal::Writing;
use refusal::Refusal;

// Minus the refusal's number.
fn negative(r: Refusal) -> i32
    ensures { (result ≡ minus (number_of r)) × (number_of r < 256) }
{
    -i32::from(u8::from(r))
}

// The length of the text or of the reduced tree, or minus the number of a refusal.
fn number(answer: Result<usize, Refusal>) -> i64
    requires { length_of answer ≤ length_limit }
    ensures { result ≡ lowering_number (heard answer) }
{
    match answer {
        Ok(n) => n as i64,
        Err(r) => negative(r) as i64,
    }
}

// The text's length, or minus the number of a refusal, 1 to 9; every byte of `out` is as `gpkg::to_sql` leaves it.
#[unsafe(no_mangle)]
pub extern "C" fn wenduulig_to_sql(settings: &[u8], tree: &[u8], out: &mut [u8]) -> i64
    ensures says { result ≡ lowering_number (said (lowering Rust settings.now tree.now (length out.old))) }
    ensures bytes { out.new ≡ leaves out.old (lowering Rust settings.now tree.now (length out.old)) }
{
    number(gpkg::to_sql(settings, tree, out))
}

// The same of `gpkg::to_geopackage_sql`.
#[unsafe(no_mangle)]
pub extern "C" fn wenduulig_to_geopackage_sql(settings: &[u8], tree: &[u8], out: &mut [u8]) -> i64
    ensures says { result ≡ lowering_number (said (lowering GeoPackage settings.now tree.now (length out.old))) }
    ensures bytes { out.new ≡ leaves out.old (lowering GeoPackage settings.now tree.now (length out.old)) }
{
    number(gpkg::to_geopackage_sql(settings, tree, out))
}

// What `wenduulig_to_sql` answers with a buffer of this size; nothing is written.
#[unsafe(no_mangle)]
pub extern "C" fn wenduulig_preview_sql(settings: &[u8], tree: &[u8], size: usize) -> i64
    ensures { result ≡ lowering_number (said (lowering Rust settings.now tree.now size)) }
{
    number(gpkg::preview(Writing::Rust, settings, tree, size))
}

// What `wenduulig_to_geopackage_sql` answers with a buffer of this size; nothing is written.
#[unsafe(no_mangle)]
pub extern "C" fn wenduulig_preview_geopackage_sql(settings: &[u8], tree: &[u8], size: usize) -> i64
    ensures { result ≡ lowering_number (said (lowering GeoPackage settings.now tree.now size)) }
{
    number(gpkg::preview(Writing::GeoPackage, settings, tree, size))
}

// What `wenduulig_to_sql` answers and leaves, of `controller::to_sql`: refusals 2, 4 and 8 mean the controller's limits.
#[unsafe(no_mangle)]
pub extern "C" fn wenduulig_controller_to_sql(settings: &[u8], tree: &[u8], out: &mut [u8]) -> i64
    ensures says { result ≡ lowering_number (said (lowering_within controller Rust settings.now tree.now (length out.old))) }
    ensures bytes { out.new ≡ leaves out.old (lowering_within controller Rust settings.now tree.now (length out.old)) }
{
    number(controller::to_sql(settings, tree, out))
}

// The same of `controller::to_geopackage_sql`, by the second call.
#[unsafe(no_mangle)]
pub extern "C" fn wenduulig_controller_to_geopackage_sql(
    settings: &[u8],
    tree: &[u8],
    out: &mut [u8],
) -> i64
    ensures says { result ≡ lowering_number (said (lowering_within controller GeoPackage settings.now tree.now (length out.old))) }
    ensures bytes { out.new ≡ leaves out.old (lowering_within controller GeoPackage settings.now tree.now (length out.old)) }
{
    number(controller::to_geopackage_sql(settings, tree, out))
}

// What `wenduulig_controller_to_sql` answers with a buffer of this size; nothing is written.
#[unsafe(no_mangle)]
pub extern "C" fn wenduulig_controller_preview_sql(settings: &[u8], tree: &[u8], size: usize) -> i64
    ensures { result ≡ lowering_number (said (lowering_within controller Rust settings.now tree.now size)) }
{
    number(controller::preview(Writing::Rust, settings, tree, size))
}

// What `wenduulig_controller_to_geopackage_sql` answers with a buffer of this size; nothing is written.
#[unsafe(no_mangle)]
pub extern "C" fn wenduulig_controller_preview_geopackage_sql(
    settings: &[u8],
    tree: &[u8],
    size: usize,
) -> i64
    ensures { result ≡ lowering_number (said (lowering_within controller GeoPackage settings.now tree.now size)) }
{
    number(controller::preview(Writing::GeoPackage, settings, tree, size))
}

// The reduced tree's length, or minus the number of a refusal, 2 to 7, 9 or 14; every byte of `out` is as `reduce::reduce` leaves it.
#[unsafe(no_mangle)]
pub extern "C" fn wenduulig_reduce(tree: &[u8], out: &mut [u8]) -> i64
    ensures says { result ≡ lowering_number (said (reducing tree.now (length out.old))) }
    ensures bytes { out.new ≡ leaves out.old (reducing tree.now (length out.old)) }
{
    number(reduce::reduce(tree, out))
}

// 1 true, 0 false, 2 unknown, or minus the number of a refusal, 10 to 13.
#[unsafe(no_mangle)]
pub extern "C" fn wenduulig_read<'a>(text: &'a [u8], row: &'a [u8]) -> i32
    ensures { result ≡ reading_number (reading.said (reading.decided text.now row.now)) }
{
    match truth::read(text, row) {
        Ok(Some(true)) => 1,
        Ok(Some(false)) => 0,
        Ok(None) => 2,
        Err(r) => negative(r),
    }
}
