//! Changes of the items of a vector.
ghost use Rattle.std.specs.Prelude.{◌≡◌, length, map};
ghost use Rattle.numa_rows.specs.Changes.{Makes};

/// Replaces each item by what `f` returns for it. It doesn't allocate and can't fail.
pub fn update_items<T: Copy + Drop, F: Fn(&T) -> T>(items: &mut Vec<T>, f: &F)
    requires { F.IsAlwaysCallable f.now }
    ensures size { length items.new.items ≡ length items.old.items }
    ensures made { (change : T → T) → Makes F.Fn f.now change
        → items.new.items ≡ map change items.old.items }
{
    for i in 0..items.len() {
        let item = items[i];
        items[i] = f(&item);
    }
}
