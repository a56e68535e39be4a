//! What a page of HTML has before and after the rows of its table.

/// The page up to the headings of the columns for the cases.
pub(crate) const PAGE_HEAD: &[u8] = b"<!DOCTYPE html>
<html lang=\"en\">
<head>
<meta charset=\"utf-8\">
<meta name=\"viewport\" content=\"width=device-width,initial-scale=1\">
<title>Test results</title>
<style>
:root{color-scheme:light dark;--bg:#fff;--fg:#1c1b18;--line:#8a8576;--good:#1a6b34;--bad:#b3261e}
@media (prefers-color-scheme:dark){:root{--bg:#15171a;--fg:#ebe8e1;--line:#7b7f86;--good:#7fd69a;--bad:#ff9b91}}
body{margin:1rem;background:var(--bg);color:var(--fg);font:1rem/1.5 system-ui,sans-serif}
.wide{overflow-x:auto}
table{border-collapse:collapse}
th,td{padding:.3rem .6rem;border:1px solid var(--line);text-align:left;vertical-align:top}
.passed{color:var(--good)}
.failed summary,.errors summary{color:var(--bad);cursor:pointer}
p,pre{margin:.3rem 0;white-space:pre-wrap}
</style>
</head>
<body>
<h1>Test results</h1>
<div class=\"wide\" role=\"region\" aria-label=\"Table of results\" tabindex=\"0\">
<table>
<thead><tr><th scope=\"col\">Solution</th><th scope=\"col\">Passed</th>";

/// The page after the totals.
pub(crate) const PAGE_TAIL: &[u8] = b"<script>
addEventListener('click', event => {
  const button = event.target.closest('button[data-film]');
  if (!button) return;
  const text = id => document.getElementById(id);
  const film = text(button.dataset.film);
  const page = open().document;
  page.open();
  page.write(text('film-head').value + film.textContent + text('film-tail').value);
  page.close();
});
</script>
</body>
</html>
";
