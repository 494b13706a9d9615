// The window of one receive key.
ghost use Rattle.std.specs.Prelude.{◌≡◌, min};
ghost use Rattle.numbers.specs.Contract.{width_of, empty_window, is_empty, sound_window, as_placed, judged, placed, after, gaps_of};

use crate::marks::Marks;
use answers::Refusal;

// What a channel sets for the windows of its keys: how many numbers below next are remembered, and
// the limit that numbers stay below. It goes beside a window and not in it, since C holds the windows
// and each call has the rule from the setting.
#[derive(Clone, Copy)]
pub struct Rule {
    pub width: u64,
    pub limit: u64,
}

// next is one more than the highest number marked, 0 where none is. Bit i of marks is set where
// next - 1 - i is marked.
#[repr(C)]
#[derive(Clone, Copy, PartialEq, Eq)]
pub struct Window {
    pub next: u64,
    pub marks: Marks,
}

impl Rule {
    // The width that the calls go by: of the others 0 acts as 1, and more than the word has as all
    // of it.
    #[tactic(auto, unfolding(crate::specs::Contract::width_of))]
    fn span(self) -> u64
        ensures { result ≡ width_of self }
    {
        self.width.clamp(1, Window::WIDTH)
    }
}

impl Window {
    // The most numbers that a window remembers.
    pub const WIDTH: u64 = Marks::BITS;

    // Numbers with the same low 16 bits are this far apart.
    const TURN: u64 = 65536;

    // The last number of 64 bits.
    const LAST: u64 = u64::MAX;

    pub fn empty() -> Window
        ensures { result ≡ empty_window }
    {
        let marks = Marks::none();
        Window { next: 0, marks }
    }

    // Whether nothing is marked and nothing else is in it.
    pub fn is_empty(self) -> bool
        ensures { result ≡ is_empty self }
    {
        self == Window::empty()
    }

    // How many numbers below next the window remembers.
    fn held(self, rule: Rule) -> u64
        ensures { result ≡ min (width_of rule) self.next }
    {
        rule.span().min(self.next)
    }

    // Whether this is a state that marking can reach under the rule.
    pub fn sound(self, rule: Rule) -> bool
        ensures { result ≡ sound_window rule self }
    {
        let next = self.next;
        let marks = self.marks;
        let limit = rule.limit;
        let k = self.held(rule);
        let low = marks.cut(k);
        let within = marks.same(low);
        let top = marks.test(0);
        (next <= limit) & within & ((next == 0) | top)
    }

    // The number of a record with these low 16 bits, or why it is refused. RFC 9147, 4.2.2: of the
    // numbers on either side of next with these bits the nearer; on a tie the lower, and never a
    // negative one. Sums and comparisons as that page has them, so that it can be read beside it, and no
    // `checked_sub`.
    pub fn place(self, rule: Rule, low: u16) -> Result<u64, Refusal>
        ensures { as_placed result ≡ placed rule self low }
    {
        let next = self.next;
        let up = (u64::from(low) + Window::TURN - next % Window::TURN) % Window::TURN;
        let down = Window::TURN - up;
        if down <= up {
            let negative = next < down;
            if !negative {
                let below = next - down;
                return self.judge(rule, below);
            }
        }
        if Window::LAST - next < up {
            return Err(Refusal::Spent);
        }
        let above = next + up;
        self.judge(rule, above)
    }

    // What becomes of a record with the number n.
    pub fn judge(self, rule: Rule, n: u64) -> Result<u64, Refusal>
        ensures { as_placed result ≡ judged rule self n }
    {
        let next = self.next;
        let marks = self.marks;
        let limit = rule.limit;
        if limit <= n {
            return Err(Refusal::Spent);
        }
        if next <= n {
            return Ok(n);
        }
        let behind = next - 1 - n;
        let reach = rule.span();
        if reach <= behind {
            return Err(Refusal::Old);
        }
        let seen = marks.test(behind);
        if seen {
            return Err(Refusal::Repeat);
        }
        Ok(n)
    }

    // The window after n is marked.
    pub fn mark(self, rule: Rule, n: u64) -> Window
        ensures { result ≡ after rule self n }
    {
        let next = self.next;
        let marks = self.marks;
        let limit = rule.limit;
        if limit <= n {
            return self;
        }
        let width = rule.span();
        if next <= n {
            let up = marks.moved(n + 1 - next);
            let kept = up.cut(width);
            let set = kept.set(0);
            return Window {
                next: n + 1,
                marks: set,
            };
        }
        let behind = next - 1 - n;
        if width <= behind {
            return self;
        }
        let set = marks.set(behind);
        Window { next, marks: set }
    }

    // How many of the last numbers below next, as many as the window remembers, are unmarked: at most 256.
    pub fn gaps(self, rule: Rule) -> u32
        ensures { result ≡ gaps_of rule self }
    {
        let marks = self.marks;
        let k = self.held(rule);
        let kept = marks.cut(k);
        let marked = kept.count();
        k as u32 - marked
    }
}
