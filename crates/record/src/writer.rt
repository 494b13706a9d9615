// Writing a record.
ghost use Rattle.std.specs.Prelude.{◌≡◌, ◌+◌, ◌≤◌, length, ltb};
ghost use Rattle.octets.specs.Parts.{over};
ghost use Rattle.record.specs.Shape.{head_len, most_length};
ghost use Rattle.record.specs.Write.{body_len, body_of, length_for, form_of, write_of, written};
ghost use Rattle.record.specs.Told.{as_formed};

use crate::header;
use crate::setting::Setting;
use answers::Refusal;

// The form of a record that is to be built: the ends of its associated data, of its text, and its
// own.
#[derive(Clone, Copy)]
pub struct Form {
    pub assoc: u64,
    pub text: u64,
    pub total: u64,
}

// Whether the Length would be more than its field holds. Here and below p and q are the lengths of the
// data and of the random bytes: two numbers, which a struct of them would only name once more.
#[tactic(auto, using(crate::proofs::Page::mac_most, crate::proofs::Forms::inner_most, crate::proofs::Forms::length_most), unfolding(crate::specs::Write::body_len))]
fn oversize(setting: Setting, p: u64, q: u64) -> bool
    ensures { result ≡ ltb (most_length setting) (length_for setting p q) }
{
    let most = setting.most_length();
    let mac = setting.mac_len();
    if most < p {
        return true;
    }
    if setting.auth_only() {
        return most < p + mac;
    }
    if most < q {
        return true;
    }
    most < setting.inner_len() + p + q + mac
}

#[tactic(auto, using(crate::proofs::Page::mac_most, crate::proofs::Forms::inner_most, crate::proofs::Forms::length_most), unfolding(crate::specs::Write::body_len))]
fn body_len(setting: Setting, p: u64, q: u64) -> u64
    requires { length_for setting p q ≤ most_length setting }
    ensures { result ≡ body_len setting p q }
{
    if setting.auth_only() {
        p
    } else {
        setting.inner_len() + p + q
    }
}

impl Form {
    // For p bytes of data and q random bytes. The checks 15 and 16.
    #[tactic(auto, using(crate::proofs::Heads::head_most, crate::proofs::Page::mac_most, crate::proofs::Forms::length_most), unfolding(crate::specs::Write::form_of, crate::specs::Write::form_rows, crate::specs::Write::assoc_end_for))]
    pub fn plan(setting: Setting, p: u64, q: u64) -> Result<Form, Refusal>
        ensures { as_formed result ≡ form_of setting p q }
    {
        let clear = setting.auth_only();
        if clear && q != 0 {
            return Err(Refusal::Padding);
        }
        if oversize(setting, p, q) {
            return Err(Refusal::Size);
        }
        let head = setting.head_len();
        let text = head + body_len(setting, p, q);
        let total = text + setting.mac_len();
        let assoc = if clear { text } else { head };
        Ok(Form { assoc, text, total })
    }
}

// What stands between the header and the MAC: the data, and in mode 1 its length before it and the
// random bytes behind it.
fn put_body(setting: Setting, app: &[u8], random: &[u8], out: &mut [u8])
    requires { head_len setting + body_len setting (length app.now) (length random.now) ≤ length out.old }
    ensures { out.new ≡ over out.old (head_len setting) (body_of setting app.now random.now) }
{
    let at = setting.head_len() as usize;
    if setting.auth_only() {
        octets::put(out, at, app);
        return;
    }
    octets::put_little16(out, at, app.len() as u64);
    let a1 = at + setting.inner_len() as usize;
    octets::put(out, a1, app);
    let a2 = a1 + app.len();
    octets::put(out, a2, random);
}

// All of a record but its MAC at the start of `out`, where the form is good and there is room for
// it: the checks 15 to 17. Data, random bytes and buffer are three slices that C lends one by one, and
// each is named once; a struct of them would lend a buffer for writing from inside.
pub fn write(
    setting: Setting,
    number: u64,
    app: &[u8],
    random: &[u8],
    out: &mut [u8],
) -> Result<Form, Refusal>
    ensures form { as_formed result ≡ write_of setting (length app.now) (length random.now) (length out.old) }
    ensures bytes { out.new ≡ written setting number app.now random.now out.old }
{
    let form = Form::plan(setting, app.len() as u64, random.len() as u64)?;
    if (out.len() as u64) < form.total {
        return Err(Refusal::Room);
    }
    let head = setting.head_len();
    header::put_head(setting, number, form.total - head, out);
    put_body(setting, app, random, out);
    Ok(form)
}
