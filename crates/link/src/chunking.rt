// What holds of the receiver's rules.
ghost use Rattle.link.specs.Feeding.{AnyChunking};

// The same octets lead to the same mode, memory and reports, however they are cut into feeds.
pub fn any_chunking_stands()
    ensures { AnyChunking }
{}
