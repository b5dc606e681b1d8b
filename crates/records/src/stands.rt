// That what commands do to pages is what the plain house does.
ghost use Rattle.records.specs.Does.{PagesRight};

// Any commands one after another, from blank pages on.
pub fn pages_stand()
    ensures { PagesRight }
{}
