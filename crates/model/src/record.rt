// Plain records.
ghost use Rattle.std.specs.Prelude.{◌≡◌, true};

// Values whose equality is identity: those that compare as equal are the same.
pub trait Record: Copy + Default + PartialEq + Drop {
    ghost identical: { (x : Self) (y : Self) → Self.PartialEq.eq x y ≡ true → x ≡ y };

    ghost equal: { (x : Self) → Self.PartialEq.eq x x ≡ true };
}
