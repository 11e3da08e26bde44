// Lowers filters as `gpkg::to_sql` does, or with the argument `geopackage` as `gpkg::to_geopackage_sql`; with the argument `controller` before it as
// these of crate controller. Standard input: cases to its end, each a settings record and then a tree, each of these after its length in four bytes,
// little-endian. Standard output: a line for each case, the SQL text or `refused N`; `incomplete` if the input ends inside a case.
#![tactic(auto)]

use std::io;

fn main(rt: HostRuntime) -> io::Result<()> {
    let Some(call) = calls::from_args(&rt) else {
        return eprintln!(rt; "usage: lower [controller] [geopackage]");
    };
    let mut out = input::large_buffer();
    input::answer_all(&rt, |settings, tree| {
        let lowered = call.lower(settings, tree, &mut out);
        calls::print_line(&mut io::writer(&rt), lowered, &out)
    })
}
