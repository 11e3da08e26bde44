// As program `lower`, but of what `reduce::reduce` makes of each tree: by `gpkg::to_sql`, or with the argument `geopackage` by `gpkg::to_geopackage_sql`;
// with the argument `controller` before it by these of crate controller. Standard input: cases to its end, each a settings record and then a tree, each
// of these after its length in four bytes, little-endian. Standard output: a line for each case, the SQL text or `refused N`, where a refusal of reducing
// comes before all others; `incomplete` if the input ends inside a case.
#![tactic(auto)]

use std::io;

fn main(rt: HostRuntime) -> io::Result<()> {
    let Some(call) = calls::from_args(&rt) else {
        return eprintln!(rt; "usage: lower_reduced [controller] [geopackage]");
    };
    let mut room = input::large_buffer();
    let mut out = input::large_buffer();
    input::answer_all(&rt, |settings, tree| {
        let lowered = reduce::reduce(tree, &mut room).and_then(|n| call.lower(
            settings,
            input::first(&room, n),
            &mut out,
        ));
        calls::print_line(&mut io::writer(&rt), lowered, &out)
    })
}
