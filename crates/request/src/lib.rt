// The reader of the text that asks for a month sheet [sheet-input].
#![tactic(auto)]

ghost use Rattle.std.specs.Prelude.{◌≡◌, ◌≤◌, length, IfSome};
ghost use Rattle.request.specs.Request.{read_number, read_line, read_month, read_year, read_request};

// A number, and how many bytes were read for it, up to its line feed.
#[derive(Clone, Copy)]
struct Line {
    value: u32,
    size: usize,
}

// The month of a market that the text names.
#[derive(Clone, Copy)]
pub struct Request {
    pub market: u32,
    pub year: u32,
    pub month: u32,
}

// 1 to 9 digits and the line feed after them.
#[tactic(auto, unfolding(crate::specs::Request::read_number))]
fn read_number(text: &[u8]) -> Option<Line>
    ensures value { result ≡ read_number text.now }
    ensures within { IfSome result (λ line. line.size ≤ length text.now) }
{
    let n = decimal::leading_digits(text);
    if n == 0 || n > 9 || text.get(n) != Some(&b'\n') {
        return None;
    }
    Some(Line {
        value: decimal::value(&text[..n]),
        size: n + 1,
    })
}

// The name and its number.
#[tactic(auto, unfolding(crate::specs::Request::read_line), using(crate::proofs::RequestLaws::name_stripped))]
fn read_line(name: &[u8], text: &[u8]) -> Option<Line>
    ensures value { result ≡ read_line name.now text.now }
    ensures within { IfSome result (λ line. line.size ≤ length text.now) }
{
    let number = read_number(text.strip_prefix(name)?)?;
    Some(Line {
        value: number.value,
        size: name.len() + number.size,
    })
}

// The last line, after which nothing may follow.
#[tactic(auto, unfolding(crate::specs::Request::read_month, crate::specs::Request::on_line), using(crate::proofs::RequestLaws::ends))]
fn read_month(market: u32, year: u32, text: &[u8]) -> Option<Request>
    ensures { result ≡ read_month market year text.now }
{
    let line = read_line(b"month=", text)?;
    (line.size == text.len()).then_some(Request {
        market,
        year,
        month: line.value,
    })
}

// The second line; the rest of the text goes to the reader of the third.
#[tactic(auto, unfolding(crate::specs::Request::read_year, crate::specs::Request::on_line))]
fn read_year(market: u32, text: &[u8]) -> Option<Request>
    ensures { result ≡ read_year market text.now }
{
    let line = read_line(b"year=", text)?;
    read_month(market, line.value, &text[line.size..])
}

// [sheet-input]: the whole text, line by line. Each line's reader gives the rest of the text, from the byte after the line feed, to the
// reader of the next.
#[tactic(auto, unfolding(crate::specs::Request::read_request, crate::specs::Request::on_line))]
pub fn read_request(text: &[u8]) -> Option<Request>
    ensures { result ≡ read_request text.now }
{
    let line = read_line(b"market=", text)?;
    read_year(line.value, &text[line.size..])
}
