//! Settings on a shelf.
use campaign_cli::MemoryShelf;
use decimal_rank::Text;
use std::alloc::Global;
use std::test::Fail;

/// The settings of the sessions.
pub const SETTINGS: &str = "\
depth = 3
term = 600
hold = 2
level = 1
top_grade = 3
doubles = []

[[caller]]
name = \"org\"
role = \"organiser\"
key = \"ORGANISERORGAN01\"

[[caller]]
name = \"grp\"
role = \"group\"
key = \"GROUPGROUPGROUP1\"

[[caller]]
name = \"p\"
role = \"assessor\"
key = \"ASSESSORASSESS01\"

[[caller]]
name = \"q\"
role = \"assessor\"
key = \"ASSESSORASSESS02\"
";

/// A shelf with these settings.
pub fn settings_shelf(alloc: Global, settings: &str) -> Result<MemoryShelf, Fail> {
    let mut files = Vec::new(alloc);
    files.push((
        Text::from_slice(alloc, b"campaign.toml")?,
        Text::from_slice(alloc, settings.as_bytes())?,
    ))?;
    Ok(MemoryShelf::new(files, Vec::new(alloc)))
}
