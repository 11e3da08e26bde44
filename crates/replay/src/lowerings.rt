// Trees with texts that the Rust wrote, against to_sql; or with the same texts, `.000Z` after the seconds of each timestamp and `'A'` for each
// Interval's open second end, against to_geopackage_sql; each for the planner or the controller. A case: the settings, the tree, the buffer's length
// in four bytes, the answer, which is a byte 0 and the text, or the refusal's number. A preview must tell what writing answers, at the case's own size
// and around the text's length; and the controller must answer what the planner does, or 2, 4, 8 or 9.
use calls::{Call, Caller};
use input::Part;
use refusal::Refusal;
use replay_cases::{Case, Kind, Tally, blank_buffer, found};
use std::io;

// What is found instead of an answer: a preview that does not tell what writing answers; an answer of the controller that the planner's does not
// allow.
const OTHER_PREVIEW: u8 = 102;

const OTHER_CALLER: u8 = 103;

// The longest text.
const LENGTH_LIMIT: usize = 65535;

// The cases of a file are all of one call.
#[derive(Clone, Copy)]
pub(crate) struct Lowerings(pub(crate) Call);

// What a call is tried on.
#[derive(Clone, Copy)]
struct Filter<'a> {
    settings: &'a [u8],
    tree: &'a [u8],
}

impl Filter<'_> {
    // A part of the buffer is lent. Where there is less than that, the refusal is one that lowering never gives, and so no stored one.
    fn lower(self, call: Call, out: &mut [u8], size: usize) -> Result<usize, Refusal> {
        if out.len() < size {
            return Err(Refusal::InputTooLong);
        }
        call.lower(self.settings, self.tree, &mut out[..size])
    }

    // Whether a preview tells what writing into a buffer of this size answers.
    fn is_told(self, call: Call, size: usize) -> bool {
        let mut out = blank_buffer();
        call.preview(self.settings, self.tree, size) == self.lower(call, &mut out, size)
    }

    // At no size, one byte short, exactly enough, one byte more, and the case's own size.
    fn is_told_at_all_sizes(self, call: Call, size: usize) -> bool {
        let n = call
            .preview(self.settings, self.tree, LENGTH_LIMIT)
            .unwrap_or(0);
        self.is_told(call, 0)
            && (n == 0 || self.is_told(call, n - 1))
            && self.is_told(call, n)
            && self.is_told(call, n.saturating_add(1))
            && self.is_told(call, size)
    }

    // Whether the controller, lent this much, answers and leaves what the planner does with room for every text, or refuses by its limits or buffer.
    fn do_callers_agree(self, call: Call, size: usize) -> bool {
        let caller = Caller::Planner;
        let mut theirs = blank_buffer();
        let planners = self.lower(Call { caller, ..call }, &mut theirs, LENGTH_LIMIT);
        let caller = Caller::Controller;
        let mut ours = blank_buffer();
        let controllers = self.lower(Call { caller, ..call }, &mut ours, size);
        match controllers {
            Err(
                Refusal::TreeTooLong
                | Refusal::TooDeep
                | Refusal::TextTooLong
                | Refusal::BufferTooShort,
            ) => true,
            _ => controllers == planners && theirs == ours,
        }
    }

    // The whole buffer is compared.
    fn found(self, call: Call, text: &[u8], size: usize) -> u8 {
        let mut out = blank_buffer();
        let answer = self.lower(call, &mut out, size);
        if !self.is_told_at_all_sizes(call, size) {
            OTHER_PREVIEW
        } else if !self.do_callers_agree(call, size) {
            OTHER_CALLER
        } else {
            found(answer, text, &out)
        }
    }
}

impl Kind<4> for Lowerings {
    fn judged(&self, _place: u64, parts: &[Part; 4]) -> Option<Case> {
        let [settings, tree, size, stored] = parts;
        let size = <[u8; 4]>::try_from(size.bytes()).ok()?;
        let (&want, text) = stored.bytes().split_first()?;
        let filter = Filter {
            settings: settings.bytes(),
            tree: tree.bytes(),
        };
        let found = filter.found(self.0, text, record::dword_at(&size, 0));
        Some(Case { want, found })
    }

    fn report<P: Print>(&self, rt: &P, name: &str, tally: &Tally) -> io::Result<()> {
        let [texts, r1, r2, r3, r4, r5, r6, r7, r8, r9, ..] = tally.counts;
        println!(rt;
            "{name}: cases {}, as stored: texts {texts}, refused 1 {r1}, 2 {r2}, 3 {r3}, 4 {r4}, 5 {r5}, 6 {r6}, 7 {r7}, 8 {r8}, 9 {r9}",
            tally.done
        )
    }
}
