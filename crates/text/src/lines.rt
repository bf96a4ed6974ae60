// The lines of a listing: "Each further line is a weight and the set's atoms, ascending."
ghost use Rattle.sets.specs.Sets.{members};
ghost use Rattle.sets.specs.Masks.{mask_means};
ghost use Rattle.search.specs.Listing.{atoms_text, line_text};
ghost use Rattle.search.specs.Order.{line_with};
ghost use Rattle.text.specs.Private.Putting.{HasRoom, Puts, lines_text};

use crate::put::Writer;
use search::layout::line_at;
use search::order::Entry;
use sets::mask::Mask;

#[tactic(auto, using(crate::proofs::Laws::Putting::pieces), unfolding(search::specs::Listing::bytes_of, search::specs::Listing::line_text))]
impl Writer<'_> {
    // Puts the atoms of a set, each after a blank. Some 30 basic steps an atom beside the digits.
    fn atoms(&mut self, set: Mask)
        requires { HasRoom self.old (atoms_text (members (mask_means set))) }
        ensures { Puts self.old (atoms_text (members (mask_means set))) self.new }
    {
        for a in set.atoms() {
            self.labelled(b" ", u64::from(a));
        }
    }

    // Puts a line.
    fn line(&mut self, l: Entry)
        requires { HasRoom self.old (line_text (line_with l.weight (mask_means l.chosen))) }
        ensures { Puts self.old (line_text (line_with l.weight (mask_means l.chosen))) self.new }
    {
        self.decimal(l.weight);
        self.atoms(l.chosen);
        self.byte(b'\n');
    }

    // Puts the first `n` lines. At most some 3,100 basic steps a line.
    pub(crate) fn lines(&mut self, line: &[u64], n: usize)
        requires { HasRoom self.old (lines_text line.now n) }
        ensures { Puts self.old (lines_text line.now n) self.new }
    {
        for i in 0..n {
            self.line(line_at(line, i));
        }
    }
}
