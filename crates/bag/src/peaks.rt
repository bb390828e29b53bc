// Words over lent memory, and where the largest is: each index has a word in `words`, 0 where it has none, and in `peaks`
// stand the largest of each 8 words, from its front on, of each 64, from its middle on, and of each 512, in its last quarter.
// The last entry of peaks, where no largest word stands there, names the index whose word grew last.
// No branch depends on a word, for which of two is larger is what no processor can foresee.
ghost use Rattle.std.specs.Prelude.{◌≡◌, ℕ, ◌+◌, ◌-◌, ◌/◌, ◌≤◌, ◌<◌, max, eqb, length, get_or, set, IfSome};
ghost use Rattle.bag.specs.Order.{pick};
ghost use Rattle.bag.specs.Content.{held};
ghost use Rattle.bag.specs.Peaks.{peak, span, Peaks, FirstOf, first_from};

// The largest of two words from i on.
fn of_two(list: &[usize], i: usize) -> usize
    requires { (i + 2 ≤ length list.now) × (length list.now ≤ 1024) }
    ensures { result ≡ peak list.now i 2 }
{
    list[i].max(list[i + 1])
}

// The largest of four.
fn of_four(list: &[usize], i: usize) -> usize
    requires { (i + 4 ≤ length list.now) × (length list.now ≤ 1024) }
    ensures { result ≡ peak list.now i 4 }
{
    of_two(list, i).max(of_two(list, i + 2))
}

// The largest of eight.
fn of_eight(list: &[usize], i: usize) -> usize
    requires { (i + 8 ≤ length list.now) × (length list.now ≤ 1024) }
    ensures { result ≡ peak list.now i 8 }
{
    of_four(list, i).max(of_four(list, i + 4))
}

// The word at i if that stands before the end, else 0.
fn of_one(list: &[usize], i: usize, end: usize) -> usize
    requires { (end ≤ length list.now) × (length list.now ≤ 1024) × (i ≤ 1024) × (end < i + 2) }
    ensures { result ≡ peak list.now i (end - i) }
{
    if i < end { list[i] } else { 0 }
}

// The largest of the words from i on that stand before the end, fewer than four.
fn of_three(list: &[usize], i: usize, end: usize) -> usize
    requires { (end ≤ length list.now) × (length list.now ≤ 1024) × (i ≤ 1024) × (end < i + 4) }
    ensures { result ≡ peak list.now i (end - i) }
{
    if i + 2 <= end {
        of_two(list, i).max(of_one(list, i + 2, end))
    } else {
        of_one(list, i, end)
    }
}

// The same, fewer than eight. There is no loop: a compiler would read several words at a time in it, and wait for a store
// just made to one of them.
fn of_rest(list: &[usize], i: usize, end: usize) -> usize
    requires { (end ≤ length list.now) × (length list.now ≤ 1024) × (i ≤ 1024) × (end < i + 8) }
    ensures { result ≡ peak list.now i (end - i) }
{
    if i + 4 <= end {
        of_four(list, i).max(of_three(list, i + 4, end))
    } else {
        of_three(list, i, end)
    }
}

// The largest of the eight words from i on, or of those of them that stand before the end.
fn of_group(list: &[usize], i: usize, end: usize) -> usize
    requires { (end ≤ length list.now) × (length list.now ≤ 1024) × (i ≤ 1024) }
    ensures { result ≡ peak list.now i (span i end) }
{
    if i + 8 <= end {
        of_eight(list, i)
    } else {
        of_rest(list, i, end)
    }
}

// The entry i grows to w, unless it is larger.
fn lift(peaks: &mut [usize], i: usize, w: usize)
    requires { i < length peaks.old }
    ensures { peaks.new ≡ set peaks.old i (max (get_or peaks.old i 0) w) }
{
    peaks[i] = peaks[i].max(w);
}

// The last entry of peaks names v, where no largest word stands there.
fn note(peaks: &mut [usize], words: &[usize], v: usize)
    requires { Peaks peaks.old words.now }
    ensures { Peaks peaks.new words.now }
{
    let m = words.len();
    if 4 < m {
        peaks[m - 1] = v;
    }
}

// v's word grows to w.
fn raise(peaks: &mut [usize], words: &mut [usize], v: usize, w: usize)
    requires v_in_bounds { (v < length words.old) × (get_or words.old v 0 ≤ w) }
    requires peaks { Peaks peaks.old words.old }
    ensures words_after { words.new ≡ set words.old v w }
    ensures peaks_2 { Peaks peaks.new words.new }
{
    words[v] = w;
    let m = words.len();
    lift(peaks, v / 8, w);
    lift(peaks, m / 2 + v / 64, w);
    lift(peaks, m / 2 + m / 4 + v / 512, w);
    note(peaks, words, v);
}

// The same where there are n words. Gives how many there are then.
pub fn add(peaks: &mut [usize], words: &mut [usize], n: usize, v: usize, w: usize) -> usize
    requires v_in_bounds { (v < length words.old) × (get_or words.old v 0 ≤ w) × (0 < w) }
    requires peaks { Peaks peaks.old words.old }
    requires n_value { n ≡ held words.old }
    ensures words_after { words.new ≡ set words.old v w }
    ensures peaks_2 { Peaks peaks.new words.new }
    ensures value { result ≡ held words.new }
{
    let old = words[v];
    raise(peaks, words, v, w);
    if old == 0 { n + 1 } else { n }
}

// v's word becomes 0.
pub fn clear(peaks: &mut [usize], words: &mut [usize], v: usize)
    requires v_in_bounds { v < length words.old }
    requires peaks { Peaks peaks.old words.old }
    ensures words_after { words.new ≡ set words.old v 0 }
    ensures peaks_2 { Peaks peaks.new words.new }
{
    words[v] = 0;
    let m = words.len();
    let low = of_group(words, v / 8 * 8, m);
    peaks[v / 8] = low;
    let high = of_group(peaks, v / 64 * 8, (m + 7) / 8);
    peaks[m / 2 + v / 64] = high;
    let top = of_group(peaks, m / 2 + v / 512 * 8, m / 2 + (m + 63) / 64);
    peaks[m / 2 + m / 4 + v / 512] = top;
}

// v's word, the only one, becomes 0.
pub fn empty(peaks: &mut [usize], words: &mut [usize], v: usize)
    requires v_in_bounds { v < length words.old }
    requires peaks { Peaks peaks.old words.old }
    requires by_index { (u : ℕ) → 0 < get_or words.old u 0 → u ≡ v }
    ensures words_after { words.new ≡ set words.old v 0 }
    ensures peaks_2 { Peaks peaks.new words.new }
{
    words[v] = 0;
    let m = words.len();
    peaks[v / 8] = 0;
    peaks[m / 2 + v / 64] = 0;
    peaks[m / 2 + m / 4 + v / 512] = 0;
}

// The index of the only word that is not 0, where n is 1 and the last entry of peaks names it.
pub fn lone(peaks: &[usize], words: &[usize], n: usize) -> Option<usize>
    requires { (length peaks.now ≡ length words.now) × (0 < length words.now) }
    ensures { IfSome result
        (λ v. (v < length words.now) × (n ≡ 1) × (0 < get_or words.now v 0)) }
{
    let v = peaks[words.len() - 1];
    if n == 1 && v < words.len() && words[v] != 0 {
        Some(v)
    } else {
        None
    }
}

// The largest word.
pub fn largest(peaks: &[usize], words: &[usize]) -> usize
    requires { Peaks peaks.now words.now × (0 < length words.now) }
    ensures { result ≡ peak words.now 0 (length words.now) }
{
    let m = words.len();
    let top = m / 2 + m / 4;
    if m <= 512 {
        peaks[top]
    } else {
        of_two(peaks, top)
    }
}

// The entry i where it is w, else r.
fn sooner(list: &[usize], i: usize, w: usize, r: usize) -> usize
    requires { i < length list.now }
    ensures { result ≡ pick (eqb (get_or list.now i 0) w) i r }
{
    if list[i] == w { i } else { r }
}

// The first of eight entries from i on that is w, one of which is.
fn first_of_eight(list: &[usize], i: usize, w: usize) -> usize
    requires { (i + 8 ≤ length list.now) × (length list.now ≤ 1024) }
    ensures { result ≡ first_from list.now i 7 w }
{
    let g = sooner(list, i + 6, w, i + 7);
    let f = sooner(list, i + 5, w, g);
    let e = sooner(list, i + 4, w, f);
    let d = sooner(list, i + 3, w, e);
    let c = sooner(list, i + 2, w, d);
    let b = sooner(list, i + 1, w, c);
    sooner(list, i, w, b)
}

// The first entry from i on that is w, which is the largest of those before the end, few as they are.
fn first_of_rest(list: &[usize], i: usize, end: usize, w: usize) -> usize
    requires end_in_bounds { (end ≤ length list.now) × (length list.now ≤ 1024) }
    requires w_value { (w ≡ peak list.now i (end - i)) × (0 < w) }
    ensures { FirstOf list.now i (end - i) w result }
{
    let mut r = end;
    for k in (i..end).rev() {
        r = sooner(list, k, w, r);
    }
    r
}

// The same, of the eight entries from i on, or of those of them that stand before the end.
fn first_of_group(list: &[usize], i: usize, end: usize, w: usize) -> usize
    requires end_in_bounds { (end ≤ length list.now) × (length list.now ≤ 1024) × (i ≤ 1024) }
    requires w_value { (w ≡ peak list.now i (span i end)) × (0 < w) }
    ensures { FirstOf list.now i (span i end) w result }
{
    if i + 8 <= end {
        first_of_eight(list, i, w)
    } else {
        first_of_rest(list, i, end, w)
    }
}

// The first block of 512 that has w, which is the largest word.
fn first_top(peaks: &[usize], words: &[usize], w: usize) -> usize
    requires peaks { Peaks peaks.now words.now × (0 < length words.now) }
    requires w_value { w ≡ peak words.now 0 (length words.now) }
    ensures { FirstOf peaks.now
        (length words.now / 2 + length words.now / 4)
        ((length words.now + 511) / 512) w
        (length words.now / 2 + length words.now / 4 + result) }
{
    let m = words.len();
    usize::from(peaks[m / 2 + m / 4] < w)
}

// The first index that has the largest word, which is not 0.
pub fn first(peaks: &[usize], words: &[usize]) -> usize
    requires peaks { Peaks peaks.now words.now }
    requires nonzero { 0 < peak words.now 0 (length words.now) }
    ensures { FirstOf words.now 0 (length words.now)
        (peak words.now 0 (length words.now)) result }
{
    let m = words.len();
    let w = largest(peaks, words);
    let top = first_top(peaks, words, w);
    let high = first_of_group(peaks, m / 2 + top * 8, m / 2 + (m + 63) / 64, w);
    let low = first_of_group(peaks, (high - m / 2) * 8, (m + 7) / 8, w);
    first_of_group(words, low * 8, m, w)
}
