// A reader holds the text and the byte it has reached. The functions that do the work take the slice and the number;
// by what they find the reader moves on, by its method `next`.
#![tactic(auto)]

ghost use Rattle.std.specs.Prelude.{◌≡◌};
ghost use Rattle.reader.specs.Internal.Moved.{moved};

// A text and the byte that is reached.
#[derive(Clone, Copy)]
pub struct Reader<'a> {
    pub text: &'a [u8],
    pub at: usize,
}

impl<'a> Reader<'a> {
    // Moves on by what was found at the byte that is reached: the reader then stands at the byte after it, or where it
    // stood where nothing is found.
    pub fn next<T>(&mut self, found: Option<(T, usize)>) -> Option<T>
        ensures text { self.new.text ≡ self.old.text }
        ensures found { (result, self.new.at) ≡ moved self.old.at found }
    {
        let (value, at) = found?;
        self.at = at;
        Some(value)
    }
}
