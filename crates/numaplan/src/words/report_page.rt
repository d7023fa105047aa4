//! A page of headings, pictures and texts, which asks no network and runs no script.
use numa_answers::{About, begin_page, told_of};
use numa_mask::Parts;
use numa_sheets::{Format, Written, height_of};
use numa_subjects::Halt;
use std::alloc::{AllocError, Global};

/// What stands between its title and its links.
static HEAD: &str = "\
body { font: 14px sans-serif; margin: 1em 2em; max-width: 1000px; color: #111; background: #fff; }
h1 { font-size: 20px; }
h2 { font-size: 16px; margin: 2em 0 0.5em; padding-top: 0.5em; border-top: 2px solid #333; }
nav a { margin-right: 1.5em; }
.wide { overflow-x: auto; }
.wide > svg { display: block; max-width: 100%; height: auto; margin-bottom: 1em; }
pre { background: #f6f6f6; padding: 8px; font-size: 12px; white-space: pre-wrap; }
pre { overflow-wrap: anywhere; }
@media (max-width: 600px) {
  body { margin: 0.5em; }
  .wide > svg { min-width: 700px; }
  pre { font-size: 11px; }
}
@media print {
  body { margin: 0; max-width: none; }
  nav { display: none; }
  h2 { break-after: avoid; }
  .wide { overflow: visible; }
  .wide > svg { min-width: 0; max-height: 88vh; break-inside: avoid; print-color-adjust: exact; }
  .tall > svg { max-height: none; }
}
</style>
</head>
<body>
<h1>Where pages go</h1>
<nav><a href='#machine'>machine</a>";

/// The most rows of pixels of a picture that is printed on one page.
const TALL: u64 = 2_400;

/// What stands behind its links.
const LINKED: &[u8] = b"</nav>\n<h2 id='machine'>What this page is of</h2>\n";

/// What it ends with.
const END: &[u8] = b"</body>\n</html>\n";

/// The heading of what a page is of.
const ABOUT: &[u8] = b"<h2>What this is of</h2>\n";

/// The rows that say what a page is of.
fn rows_of(alloc: Global, about: &About<'_>) -> Result<Vec<u8>, Halt> {
    let mut bare = Written::new(alloc);
    bare.put(END);
    let bare = bare.take()?;
    let told = told_of(alloc, Format::Html(0), about, bare)?;
    let mut rows = Written::new(alloc);
    let whole = told.strip_prefix(ABOUT).unwrap_or(told.as_slice());
    rows.put(whole.strip_suffix(END).unwrap_or(whole));
    drop(told);
    Ok(rows.take()?)
}

/// A page that is written part by part.
#[derive(Drop)]
pub struct ReportPage {
    // The links to its headings, and what stands below them.
    links: Written,
    body: Written,
}

impl ReportPage {
    /// No part.
    pub fn new(alloc: Global) -> ReportPage {
        ReportPage {
            links: Written::new(alloc),
            body: Written::new(alloc),
        }
    }

    /// Writes a heading, to which a link goes by its name.
    pub fn put_heading(&mut self, name: &str, heading: &str) {
        self.links.put(b"\n<a href='#");
        self.links.put(name.as_bytes());
        self.links.put(b"'>");
        self.links.put(name.as_bytes());
        self.links.put(b"</a>");
        self.body.put(b"<h2 id='");
        self.body.put(name.as_bytes());
        self.body.put(b"'>");
        self.body.put(heading.as_bytes());
        self.body.put(b"</h2>\n");
    }

    /// Writes words, which have no mark-up.
    pub fn put_words(&mut self, words: &str) {
        self.body.put(b"<p>");
        self.body.put(words.as_bytes());
        self.body.put(b"</p>\n");
    }

    /// Writes of which process what follows is.
    pub fn put_process(&mut self, process: u32) {
        self.body
            .put_form(b"<p>process $</p>\n", &[u64::from(process)]);
    }

    /// Writes a picture, without the line that says that it is XML.
    pub fn put_picture(&mut self, picture: &[u8]) {
        self.body.put(if height_of(picture) > TALL {
            b"<div class='wide tall'>\n".as_slice()
        } else {
            b"<div class='wide'>\n"
        });
        let lines = picture.strip_suffix(b"\n").unwrap_or(picture);
        for line in Parts::new(lines, b'\n') {
            if !line.starts_with(b"<?xml") {
                self.body.put(line);
                self.body.put(b"\n");
            }
        }
        self.body.put(b"</div>\n");
    }

    /// Writes the lines of a text as they are.
    pub fn put_lines(&mut self, lines: &[u8]) {
        self.body.put(b"<pre>");
        for byte in lines {
            match byte {
                b'&' => self.body.put(b"&amp;"),
                b'<' => self.body.put(b"&lt;"),
                b'>' => self.body.put(b"&gt;"),
                _ => self.body.put(&[*byte]),
            }
        }
        self.body.put(b"</pre>\n");
    }

    /// Writes the parts of another page, which is empty afterwards.
    ///
    /// # Errors
    /// `AllocError`: out of memory.
    pub fn take_parts(&mut self, other: &mut ReportPage) -> Result<(), AllocError> {
        let links = other.links.take()?;
        self.links.put(links.as_slice());
        drop(links);
        let body = other.body.take()?;
        self.body.put(body.as_slice());
        drop(body);
        Ok(())
    }

    /// The whole page, which says first what it is of; its parts are gone afterwards.
    ///
    /// # Errors
    /// `Stopped`: out of memory.
    pub fn end(&mut self, alloc: Global, about: &About<'_>) -> Result<Vec<u8>, Halt> {
        let rows = rows_of(alloc, about)?;
        let mut whole = Written::new(alloc);
        let links = self.links.take()?;
        begin_page(&mut whole, "numaplan report");
        whole.put(HEAD.as_bytes());
        whole.put(links.as_slice());
        drop(links);
        whole.put(LINKED);
        whole.put(rows.as_slice());
        drop(rows);
        let body = self.body.take()?;
        whole.put(body.as_slice());
        drop(body);
        whole.put(END);
        Ok(whole.take()?)
    }
}
