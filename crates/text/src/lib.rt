// The text of an answer, put into a lent buffer: one function for each kind of line.
#![tactic(auto)]

ghost use Rattle.std.specs.Prelude.{List, [], ◌∷◌, map, ℕ, ◌+◌, ◌*◌, ◌≤◌, ◌<◌, pos, length, get_or, take};
ghost use Rattle.table.specs.Links.{present};
ghost use Rattle.lines.specs.Text.{Printed, decimal_text, signed_text, end_text, cost_text, path_text, row_text};
ghost use Rattle.text.specs.Text.{distance_text, index_text, bits_text, field, with_fields, line, distance_line, distance_lines};
ghost use Rattle.text.specs.Text.{path_lines, width, row_lines, tree_line, tree_lines, refused_line, engine_line, bad_text};

// An entry of an answer, which may be none: how it is printed, and in how many bytes at most.
pub trait Entry: Copy {
    ghost text_of: { Self → List ℕ };

    ghost widest: { ℕ };

    // Puts its text at a place.
    fn put(self, out: &mut [u8], at: usize) -> usize
        requires { at + widest ≤ length out.old }
        ensures printed { Printed out.old at (text_of self) out.new result }
        ensures short { result ≤ at + widest };
}

// A distance.
impl Entry for i64 {
    ghost text_of = { distance_text };

    ghost widest = { 21 };

    #[tactic(auto, using(crate::proofs::Widths::signed_width), unfolding(crate::specs::Text::distance_text))]
    fn put(self, out: &mut [u8], at: usize) -> usize {
        if clean::NONE_I64 < self {
            lines::put_signed(out, at, self)
        } else {
            lines::put_bytes(out, at, &lines::NONE)
        }
    }
}

// An index, or a number of hops.
impl Entry for u32 {
    ghost text_of = { index_text };

    ghost widest = { 20 };

    #[tactic(auto, using(crate::proofs::Widths::decimal_width), unfolding(crate::specs::Text::index_text))]
    fn put(self, out: &mut [u8], at: usize) -> usize {
        if self == clean::NONE_U32 {
            lines::put_bytes(out, at, &lines::NONE)
        } else {
            lines::put_decimal(out, at, u64::from(self))
        }
    }
}

// An f64 distance, by its pattern.
impl Entry for u64 {
    ghost text_of = { bits_text };

    ghost widest = { 16 };

    #[tactic(auto, using(crate::proofs::Widths::hex_width), unfolding(crate::specs::Text::bits_text))]
    fn put(self, out: &mut [u8], at: usize) -> usize {
        if self == clean::NONE_F64 {
            lines::put_bytes(out, at, &lines::NONE)
        } else {
            lines::put_hex(out, at, self)
        }
    }
}

// A number that is never none.
impl Entry for usize {
    ghost text_of = { decimal_text };

    ghost widest = { 20 };

    #[tactic(auto, using(crate::proofs::Widths::decimal_width))]
    fn put(self, out: &mut [u8], at: usize) -> usize {
        lines::put_decimal(out, at, self as u64)
    }
}

// Puts a space and an entry.
fn put_field<E: Entry>(out: &mut [u8], at: usize, entry: E) -> usize
    requires { at + (E.widest + 1) ≤ length out.old }
    ensures printed { Printed out.old at (field (E.text_of entry)) out.new result }
    ensures short { result ≤ at + (E.widest + 1) }
{
    let next = lines::put_space(out, at);
    entry.put(out, next)
}

// Puts entries, each after a space.
fn put_fields<E: Entry>(out: &mut [u8], at: usize, entries: &[E]) -> usize
    requires { at + length entries.now * (E.widest + 1) ≤ length out.old }
    ensures printed { Printed out.old at (with_fields [] (map E.text_of entries.now)) out.new result }
    ensures short { result ≤ at + length entries.now * (E.widest + 1) }
{
    let mut next = at;
    for entry in entries {
        next = put_field(out, next, *entry);
    }
    next
}

// Puts a line of a word and a number.
fn print_number(out: &mut [u8], at: usize, word: &[u8], n: usize) -> usize
    requires { at + length word.now + 22 ≤ length out.old }
    ensures printed { Printed out.old at (line word.now (decimal_text n ∷ [])) out.new result }
    ensures short { result ≤ at + length word.now + 22 }
{
    let text = lines::put_bytes(out, at, word);
    let number = put_field(out, text, n);
    lines::put_newline(out, number)
}

// Puts the line `refused N`.
pub fn print_refused(out: &mut [u8], at: usize, n: usize) -> usize
    requires { at + 29 ≤ length out.old }
    ensures printed { Printed out.old at (refused_line n) out.new result }
    ensures short { result ≤ at + 29 }
{
    print_number(out, at, &lines::REFUSED, n)
}

// Puts the line `bad map at K`.
pub fn print_bad(out: &mut [u8], at: usize, k: usize) -> usize
    requires { at + 32 ≤ length out.old }
    ensures printed { Printed out.old at (bad_text k) out.new result }
    ensures short { result ≤ at + 32 }
{
    print_number(out, at, &lines::BAD_MAP, k)
}

// Puts the line `engine E`.
pub fn print_engine(out: &mut [u8], at: usize, engine: u8) -> usize
    requires { at + 28 ≤ length out.old }
    ensures printed { Printed out.old at (engine_line engine) out.new result }
    ensures short { result ≤ at + 28 }
{
    print_number(out, at, &lines::ENGINE, usize::from(engine))
}

// Puts the line `index distance`.
fn print_distance(out: &mut [u8], at: usize, dist: &[i64], i: usize) -> usize
    requires { (at + 43 ≤ length out.old) × (i < length dist.now) }
    ensures printed { Printed out.old at (distance_line dist.now i) out.new result }
    ensures short { result ≤ at + 43 }
{
    let index = i.put(out, at);
    let number = put_field(out, index, dist[i]);
    lines::put_newline(out, number)
}

// Puts a line `index distance` for each index that the map has.
pub fn print_distances(out: &mut [u8], at: usize, bound: usize, marks: &[u8], dist: &[i64]) -> usize
    requires { (bound ≤ length marks.now) × (bound ≤ length dist.now) × (at + bound * 43 ≤ length out.old) }
    ensures printed { Printed out.old at
        (distance_lines (present bound marks.now) bound dist.now) out.new result }
    ensures short { result ≤ at + bound * 43 }
{
    let mut next = at;
    for i in 0..bound {
        if table::is_present(bound, marks, i) {
            next = print_distance(out, next, dist, i);
        }
    }
    next
}

// Puts a line of one word.
fn print_word(out: &mut [u8], at: usize, word: &[u8]) -> usize
    requires { at + length word.now + 1 ≤ length out.old }
    ensures { Printed out.old at (line word.now []) out.new result }
{
    let text = lines::put_bytes(out, at, word);
    lines::put_newline(out, text)
}

// Puts the line `end`.
pub fn print_end(out: &mut [u8], at: usize) -> usize
    requires { at + 4 ≤ length out.old }
    ensures { Printed out.old at (line end_text []) out.new result }
{
    print_word(out, at, &lines::END)
}

// Puts the line `path i j ..` of the nodes of a path.
fn print_nodes(out: &mut [u8], at: usize, path: &[u32]) -> usize
    requires { at + length path.now * 21 + 5 ≤ length out.old }
    ensures printed { Printed out.old at (line path_text (map index_text path.now)) out.new result }
    ensures short { result ≤ at + length path.now * 21 + 5 }
{
    let word = lines::put_bytes(out, at, &lines::PATH);
    let nodes = put_fields(out, word, path);
    lines::put_newline(out, nodes)
}

// Puts the line `row i` and the entries of a row.
fn print_row<E: Entry>(out: &mut [u8], at: usize, i: usize, row: &[E]) -> usize
    requires { at + (length row.now * (E.widest + 1) + 25) ≤ length out.old }
    ensures printed { Printed out.old at (line row_text (decimal_text i ∷ map E.text_of row.now)) out.new result }
    ensures short { result ≤ at + (length row.now * (E.widest + 1) + 25) }
{
    let word = lines::put_bytes(out, at, &lines::ROW);
    let index = put_field(out, word, i);
    let entries = put_fields(out, index, row);
    lines::put_newline(out, entries)
}

// Puts a line `row i` with its entries for each index that the map has.
pub fn print_rows<E: Entry>(
    out: &mut [u8],
    at: usize,
    bound: usize,
    marks: &[u8],
    matrix: &[E],
) -> usize
    requires { (bound ≤ length marks.now)
        × (width (present bound marks.now) bound * width (present bound marks.now) bound ≤ length matrix.now)
        × (at + bound * (width (present bound marks.now) bound * (E.widest + 1) + 25) ≤ length out.old) }
    ensures printed { Printed out.old at
        (row_lines E.text_of (present bound marks.now) bound matrix.now) out.new result }
    ensures short { result ≤ at + bound * (width (present bound marks.now) bound * (E.widest + 1) + 25) }
{
    let p = net::count_present(bound, marks);
    let mut next = at;
    let mut rest = matrix;
    for i in 0..bound {
        if table::is_present(bound, marks, i) {
            let (row, after) = rest.split_at(p);
            next = print_row(out, next, i, row);
            rest = after;
        }
    }
    next
}

// Puts the line `cost C`.
#[tactic(auto, using(crate::proofs::Widths::signed_width))]
fn print_cost(out: &mut [u8], at: usize, cost: i64) -> usize
    requires { at + 27 ≤ length out.old }
    ensures printed { Printed out.old at (line cost_text (signed_text cost ∷ [])) out.new result }
    ensures short { result ≤ at + 27 }
{
    let word = lines::put_bytes(out, at, &lines::COST);
    let space = lines::put_space(out, word);
    let number = lines::put_signed(out, space, cost);
    lines::put_newline(out, number)
}

// Puts the lines `cost C` and `path i j ..` of a path of n nodes, or the line `none` where there is no cost.
pub fn print_path(out: &mut [u8], at: usize, cost: i64, path: &[u32], n: usize) -> usize
    requires { (n ≤ length path.now) × (at + n * 21 + 32 ≤ length out.old) }
    ensures printed { Printed out.old at (path_lines cost n path.now) out.new result }
    ensures short { result ≤ at + n * 21 + 32 }
{
    if clean::NONE_I64 < cost {
        let next = print_cost(out, at, cost);
        print_nodes(out, next, &path[..n])
    } else {
        print_word(out, at, &lines::NONE)
    }
}

// Puts the line `index bits predecessor`.
fn print_reached(out: &mut [u8], at: usize, dist: &[u64], preds: &[u32], i: usize) -> usize
    requires { (at + 59 ≤ length out.old) × (i < length dist.now) × (i < length preds.now) }
    ensures printed { Printed out.old at (tree_line dist.now preds.now i) out.new result }
    ensures short { result ≤ at + 59 }
{
    let index = i.put(out, at);
    let bits = put_field(out, index, dist[i]);
    let pred = put_field(out, bits, preds[i]);
    lines::put_newline(out, pred)
}

// Puts a line `index bits predecessor` for each index that the map has.
// No one loop with `print_distances`: a closure that prints needs clauses over the buffer, which is no plainer than three lines.
pub fn print_tree(
    out: &mut [u8],
    at: usize,
    bound: usize,
    marks: &[u8],
    dist: &[u64],
    preds: &[u32],
) -> usize
    requires { (bound ≤ length marks.now) × (bound ≤ length dist.now) × (bound ≤ length preds.now)
        × (at + bound * 59 ≤ length out.old) }
    ensures printed { Printed out.old at
        (tree_lines (present bound marks.now) bound dist.now preds.now) out.new result }
    ensures short { result ≤ at + bound * 59 }
{
    let mut next = at;
    for i in 0..bound {
        if table::is_present(bound, marks, i) {
            next = print_reached(out, next, dist, preds, i);
        }
    }
    next
}
