// A tree that was tested: its fields travel as one value, and that they are a tree within the limits goes with it.
ghost use Rattle.model.specs.Edition.{largest};
ghost use Rattle.tree.specs.Accepted.{MarkedTree};

// A tree within the limits of the largest edition, lent as lists: how many sites it has, the first and the second site of each link, a mark for each site and
// a capacity for each link.
#[derive(Clone, Copy)]
pub struct AcceptedTree<'a> {
    pub sites: usize,
    pub one: &'a [usize],
    pub two: &'a [usize],
    pub marks: &'a [u8],
    pub capacity: &'a [u64],
    pub ghost within: { MarkedTree largest sites one.now two.now marks.now capacity.now },
}
