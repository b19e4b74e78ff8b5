// Reading the indexes.
ghost use Rattle.std.specs.Prelude.{◌≡◌};
ghost use Rattle.links.specs.Indexes.{adders_at, readers_at};

use crate::links::Links;

impl Links {
    // The items of the actions that add the fact; none past the last fact.
    pub fn adders(&self, fact: usize) -> &[usize]
        ensures { result.now ≡ adders_at self.now fact }
    {
        self.adders.get(fact).map_or(&[], |list| list.as_slice())
    }

    // The items that read the item; none past the last item.
    pub fn readers(&self, item: usize) -> &[usize]
        ensures { result.now ≡ readers_at self.now item }
    {
        self.readers.get(item).map_or(&[], |list| list.as_slice())
    }
}
