// Text in a lent buffer: each method writes behind what stands there.
ghost use Rattle.std.specs.Prelude.{◌≡◌, [], ◌∷◌, ◌++◌, ◌+◌, ◌*◌, ◌≤◌, length};
ghost use Rattle.decimal.specs.Lines.{decimal, line, number_bytes, field_bytes, HasRoom, Appended, Places};

// A lent buffer, and the place behind what is written in it.
#[derive(Drop)]
pub struct Output<'a> {
    pub buffer: &'a mut [u8],
    pub at: usize,
}

// How many digits a number has.
fn places(n: u32) -> usize
    ensures { Places n result }
{
    n.checked_ilog10().unwrap_or(0) as usize + 1
}

// Each method asks for the room that it takes, which differs from one to the next.
impl<'a> Output<'a> {
    // Nothing is written yet.
    pub fn new(buffer: &'a mut [u8]) -> Output<'a>
        ensures same_buffer { result.buffer.ghost_name ≡ buffer.entry.ghost_name }
        ensures as_lent { result.buffer.now ≡ buffer.old }
        ensures at_start { result.at ≡ 0 }
    {
        Output { buffer, at: 0 }
    }

    // A text as it stands.
    pub fn text(&mut self, text: &[u8])
        requires { HasRoom self.old (length text.now) }
        ensures { Appended self.old (length text.now) text.now self.new }
    {
        let next = self.at + text.len();
        self.buffer[self.at..next].copy_from_slice(text);
        self.at = next;
    }

    // A number's digits, from the last to the first. They are written here and not by `write!`, whose answer may be an error at any
    // time: nothing says that it is none where there is room, and a text that fits has to stand there whole.
    fn number(&mut self, n: u32)
        requires { HasRoom self.old number_bytes }
        ensures { Appended self.old number_bytes (decimal n) self.new }
    {
        let end = self.at + places(n);
        let mut left = n;
        for i in (self.at..end).rev() {
            self.buffer[i] = b'0' + (left % 10) as u8;
            left /= 10;
        }
        self.at = end;
    }

    // A number and the byte behind it.
    pub fn field(&mut self, n: u32, behind: u8)
        requires { HasRoom self.old field_bytes }
        ensures { Appended self.old field_bytes (decimal n ++ (behind ∷ [])) self.new }
    {
        self.number(n);
        self.buffer[self.at] = behind;
        self.at += 1;
    }

    // A line of at least one field.
    pub fn line(&mut self, fields: &[u32])
        requires some_field { 1 ≤ length fields.now }
        requires fields_in_bounds { HasRoom self.old (field_bytes * length fields.now) }
        ensures { Appended self.old (field_bytes * length fields.now) (line fields.now) self.new }
    {
        let last = fields.len() - 1;
        for &field in &fields[..last] {
            self.field(field, b' ');
        }
        self.field(fields[last], b'\n');
    }
}
